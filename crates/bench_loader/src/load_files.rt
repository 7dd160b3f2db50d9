//! The files that a command names.

ghost use Rattle.std.specs.Prelude.{◌≡◌, ◌<◌, length, zip, slice_index_or};
ghost use Rattle.bench_loader.specs.declared.targets.Target.{Target};
ghost use Rattle.bench_inputs.specs.Asking.{library_state};
ghost use Rattle.bench_loader.specs.LoadView.{ReadsFiles, JudgesFiles, unread_of};

use crate::BenchRefused;
use crate::judge::{judge_database, refusal_of_bus};
use crate::load_line::Pair;
use crate::targets::Target;
use bench_inputs::{DatabaseFile, FileRefused, read_database};
use bench_model::Change;
use port_io::Library;
use std::alloc::{AllocFailed, Global};
use thiserror::Error;

/// Why a file was not read, by the bus whose database it was to be.
#[derive(Clone, Copy, Debug, PartialEq, Eq, Error)]
pub(crate) enum Unread {
    #[error("the file of bus {bus} could not be opened")]
    Open { bus: u32 },
    #[error("the file of bus {bus} could not be read")]
    Read { bus: u32 },
    #[error("out of memory")]
    Memory,
}

impl<T: Drop> From<AllocFailed<T>> for Unread {
    ghost use Rattle.std.specs.Prelude.{◌≡◌};
    ghost use Rattle.bench_loader.specs.declared.load_files.Unread.TheVariants as refusals;

    ghost from_gives = { λ _ refused. refused ≡ refusals.Memory };

    fn from(_: AllocFailed<T>) -> Unread {
        Unread::Memory
    }
}

/// A refusal of the file of this bus.
fn unread_of(bus: u32, why: FileRefused) -> Unread
    ensures { result ≡ unread_of bus why }
{
    match why {
        FileRefused::Open => Unread::Open { bus },
        FileRefused::Read => Unread::Read { bus },
        FileRefused::Memory => Unread::Memory,
    }
}

/// The bus at this place.
fn target_at(targets: &[Target], i: usize) -> Target
    requires { i < length targets.now }
    ensures { (d : Target) → result ≡ slice_index_or targets.now i d }
{
    targets[i]
}

/// Opens and reads the files of the pairs, one after another; none is judged.
pub(crate) fn read_files<B: Library>(
    alloc: Global,
    library: &mut B,
    pairs: &[Pair],
    targets: &[Target],
) -> Result<Vec<DatabaseFile>, Unread>
    requires { length targets.now ≡ length pairs.now }
    ensures { ReadsFiles
        (library_state (B.files library.old) (B.open_faults library.old) (B.more_faults library.old) (B.strays library.old))
        pairs.now targets.now result
        (library_state (B.files library.new) (B.open_faults library.new) (B.more_faults library.new) (B.strays library.new)) }
{
    let mut files = Vec::new(alloc);
    for (i, pair) in pairs.iter().enumerate() {
        match read_database(alloc, library, pair.file.as_str()) {
            Ok(file) => files.push(file)?,
            Err(why) => return Err(unread_of(target_at(targets, i).bus, why)),
        }
    }
    Ok(files)
}

/// The databases that the files hold, each as the change of its bus.
pub(crate) fn judge_files(
    alloc: Global,
    targets: &[Target],
    files: &[DatabaseFile],
) -> Result<Vec<Change>, BenchRefused>
    requires { length targets.now ≡ length files.now }
    ensures { JudgesFiles (zip targets.now files.now) result }
{
    let mut changes = Vec::new(alloc);
    for (i, file) in files.iter().enumerate() {
        let target = target_at(targets, i);
        match judge_database(alloc, target.kind, file) {
            Ok(database) => changes.push(Change {
                bus: target.bus,
                database,
            })?,
            Err(refused) => return Err(refusal_of_bus(target.bus, refused)),
        }
    }
    Ok(changes)
}
