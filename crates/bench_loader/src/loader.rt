//! The loader: it answers commands, and publishes a bench with new databases as one version.

ghost use Rattle.std.specs.Prelude.{◌≡◌, ℕ, List};
ghost use Rattle.bench_inputs.specs.Asking.{library_state};
ghost use Rattle.bench_model.specs.ValidBench.{IsValidBench};
ghost use Rattle.bench_loader.specs.Commands.{Answers};
ghost use Rattle.bench_loader.specs.LoaderView.{state_of, limits_of, IsFirst, HasPublished, IsLoaderOn};
ghost use Rattle.bench_loader.specs.CommandView.{FindsNext, PutsBench, reply_of};
ghost use Rattle.bench_loader.specs.ReplyView.{reply_of_image};
ghost use Rattle.image_words.specs.Image.{Encodes};
ghost use Rattle.region_store.specs.declared.store.Store.{Store};
ghost use Rattle.region_store.specs.Images.{names_of};
ghost use Rattle.region_store.specs.Ends.{shape_of};

use crate::Reply;
use crate::load_files::{judge_files, read_files};
use crate::load_line::read_load;
use crate::targets::find_targets;
use bench_inputs::files_that_are_there;
use bench_model::Bench;
use image_compiler::{CompileRefused, compile};
use image_words::one_encoded;
use port_io::Library;
use region_store::{LoaderSeat, Store};
use std::alloc::Global;

/// What changes the bench of a store: it holds the bench that is published, and the right to publish.
#[derive(Drop)]
pub struct Loader {
    bench: Bench,
    room: usize,
    seat: LoaderSeat,
}

/// A refusal of an image that was made for this room, as the reply.
fn reply_of_image(room: usize, refused: CompileRefused) -> Reply
    ensures { result ≡ reply_of_image room refused }
{
    match refused {
        CompileRefused::TooLarge { need } => Reply::TooLarge {
            need,
            room: room as u64,
        },
        CompileRefused::Memory => Reply::Memory,
    }
}

/// The bench that a command makes of this one: all its files are read, and then judged in order.
fn next_bench<B: Library>(
    alloc: Global,
    bench: &Bench,
    line: &[u8],
    library: &mut B,
) -> Result<Bench, Reply>
    requires valid { IsValidBench bench.now }
    ensures { FindsNext
        (library_state (B.files library.old) (B.open_faults library.old) (B.more_faults library.old) (B.strays library.old))
        bench.now line.now result
        (library_state (B.files library.new) (B.open_faults library.new) (B.more_faults library.new) (B.strays library.new)) }
{
    files_that_are_there();
    let pairs = read_load(alloc, line)?;
    let targets = find_targets(alloc, bench.buses.items(), &pairs)?;
    let files = read_files(alloc, library, &pairs, &targets)?;
    let changes = judge_files(alloc, &targets, &files)?;
    Ok(bench.replace(alloc, changes)?)
}

impl Loader {
    /// A loader of this seat, whose published image encodes the bench; `room` is how many words a region of its store
    /// has.
    pub fn new(bench: Bench, room: usize, seat: LoaderSeat) -> Loader
        ensures kept { (result.bench ≡ bench) × (result.room ≡ room) × (result.seat ≡ seat) }
        // The seat may be that of any loader of this bench.
        ensures loader { (s : Store) → HasPublished s bench room seat → IsLoaderOn s result }
        // The seat of a store that was just made: its first image is published as version 0.
        ensures first { (s : Store) (image : List ℕ) → IsFirst s image seat → room ≡ (shape_of s).room → IsValidBench bench
            → Encodes image bench → IsLoaderOn s result }
    {
        Loader { bench, room, seat }
    }

    /// The seat.
    pub fn into_seat(self) -> LoaderSeat
        ensures { result ≡ self.seat }
    {
        let Loader {
            bench: _,
            room: _,
            seat,
        } = self;
        seat
    }

    /// Makes the bench the next version of the store.
    fn publish(&mut self, alloc: Global, next: Bench, store: &Store) -> Result<u32, Reply>
        requires loader { IsLoaderOn store.now self.old }
        requires valid { IsValidBench next }
        requires names { names_of next ≡ names_of self.old.bench }
        ensures loader { IsLoaderOn store.now self.new }
        ensures puts { PutsBench (limits_of store.now) (state_of self.old) next result (state_of self.new) }
    {
        one_encoded();
        let image = match compile(alloc, &next, self.room) {
            Ok(image) => image,
            Err(refused) => return Err(reply_of_image(self.room, refused)),
        };
        let version = store.publish(&mut self.seat, &image)?;
        self.bench = next;
        Ok(version)
    }

    /// Does what a command asks for, and gives the version that is published then.
    fn load<B: Library>(
        &mut self,
        alloc: Global,
        line: &[u8],
        library: &mut B,
        store: &Store,
    ) -> Result<u32, Reply>
        requires loader { IsLoaderOn store.now self.old }
        ensures loader { IsLoaderOn store.now self.new }
        ensures answers { Answers (limits_of store.now)
            (library_state (B.files library.old) (B.open_faults library.old) (B.more_faults library.old) (B.strays library.old))
            (state_of self.old) line.now (reply_of result)
            (library_state (B.files library.new) (B.open_faults library.new) (B.more_faults library.new) (B.strays library.new))
            (state_of self.new) }
    {
        let next = next_bench(alloc, &self.bench, line, library)?;
        self.publish(alloc, next, store)
    }

    /// Answers a command: a line that is `LOAD` and then, up to sixteen times, the name of a bus and the name of the
    /// file of its new database. The files are opened and read one after another, then judged in order; the bench
    /// with the new databases is published as one version.
    pub fn command<B: Library>(
        &mut self,
        alloc: Global,
        line: &[u8],
        library: &mut B,
        store: &Store,
    ) -> Reply
        requires loader { IsLoaderOn store.now self.old }
        ensures loader { IsLoaderOn store.now self.new }
        ensures answers { Answers (limits_of store.now)
            (library_state (B.files library.old) (B.open_faults library.old) (B.more_faults library.old) (B.strays library.old))
            (state_of self.old) line.now result
            (library_state (B.files library.new) (B.open_faults library.new) (B.more_faults library.new) (B.strays library.new))
            (state_of self.new) }
    {
        match self.load(alloc, line, library, store) {
            Ok(version) => Reply::Ok { version },
            Err(reply) => reply,
        }
    }
}
