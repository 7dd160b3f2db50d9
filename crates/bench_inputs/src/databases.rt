//! Reading the databases, in order of buses.

ghost use Rattle.bench_inputs.specs.Asking.{library_state};
ghost use Rattle.bench_inputs.specs.Reading.{ReadsDatabase, ReadsDatabaseOf, ReadsDatabases};

use crate::{DatabaseFile, FileRefused};
use bench_file::PlannedBus;
use multiplex_tree::List;
use port_io::{Library, WholeRefused, read_whole};
use std::alloc::Global;

/// How many bytes a database may have.
const LONGEST_DATABASE: usize = 16_777_216;

/// Opens and reads the database of this name; it is not judged.
pub fn read_database<B: Library>(
    alloc: Global,
    library: &mut B,
    name: &str,
) -> Result<DatabaseFile, FileRefused>
    ensures { ReadsDatabase
        (library_state (B.files library.old) (B.open_faults library.old) (B.more_faults library.old) (B.strays library.old))
        name.now result
        (library_state (B.files library.new) (B.open_faults library.new) (B.more_faults library.new) (B.strays library.new)) }
{
    match read_whole(alloc, library, name, LONGEST_DATABASE) {
        Ok(bytes) => Ok(DatabaseFile::Bytes {
            bytes: List::of(bytes),
        }),
        Err(WholeRefused::Long) => Ok(DatabaseFile::TooLong),
        Err(WholeRefused::Open) => Err(FileRefused::Open),
        Err(WholeRefused::Read) => Err(FileRefused::Read),
        Err(WholeRefused::Memory) => Err(FileRefused::Memory),
    }
}

/// Opens and reads the database that a bus names.
fn read_database_of<B: Library>(
    alloc: Global,
    library: &mut B,
    bus: &PlannedBus,
) -> Result<DatabaseFile, FileRefused>
    ensures { ReadsDatabaseOf
        (library_state (B.files library.old) (B.open_faults library.old) (B.more_faults library.old) (B.strays library.old))
        bus.now result
        (library_state (B.files library.new) (B.open_faults library.new) (B.more_faults library.new) (B.strays library.new)) }
{
    match &bus.database {
        Some(name) => read_database(alloc, library, name.as_str()),
        None => Ok(DatabaseFile::Absent),
    }
}

/// Opens and reads the databases of these buses in order; none is judged.
pub fn read_databases<B: Library>(
    alloc: Global,
    library: &mut B,
    buses: &[PlannedBus],
) -> Result<Vec<DatabaseFile>, FileRefused>
    ensures { ReadsDatabases
        (library_state (B.files library.old) (B.open_faults library.old) (B.more_faults library.old) (B.strays library.old))
        buses.now result
        (library_state (B.files library.new) (B.open_faults library.new) (B.more_faults library.new) (B.strays library.new)) }
{
    let mut databases = Vec::new(alloc);
    for bus in buses {
        databases.push(read_database_of(alloc, library, bus)?)?;
    }
    Ok(databases)
}
