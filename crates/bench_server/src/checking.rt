//! `check`: whether a file is a database, and how much it has.

ghost use Rattle.std.specs.Prelude.{◌≡◌, ◌≤◌, ◌*◌, [], length};
ghost use Rattle.bench_model.specs.Check.{IsValid};
ghost use Rattle.bench_inputs.specs.Asking.{library_state};
ghost use Rattle.bus_text.specs.Prefixes.{sink_state};
ghost use Rattle.bench_server.specs.ToolText.{signal_count, check_text};
ghost use Rattle.bench_server.specs.Pieces.{WritesText};
ghost use Rattle.bench_server.specs.CheckOutcomes.{EndsCheck};
ghost use Rattle.bench_server.specs.Loading.{seen, Keeps};

use crate::Status;
use crate::ended::{Ended, status_of};
use crate::pieces::write_pieces;
use bench_loader::check_file;
use bench_model::{Database, valid_keeps_rules};
use itoa::Buffer;
use port_io::{Failed, Library, Sink};
use std::alloc::Global;

/// How many signals the messages of a valid database have.
fn signal_count(database: &Database) -> u64
    requires { IsValid database.now }
    ensures { result ≡ signal_count database.now.messages }
{
    valid_keeps_rules();
    let mut count: u64 = 0;
    for message in database.messages.items() {
        count += message.signals.items().len() as u64;
    }
    count
}

/// Appends the text of a valid database: how many messages and signals it has.
fn write_counts<K: Sink>(out: &mut K, database: &Database) -> Result<(), Failed>
    requires { IsValid database.now }
    ensures { WritesText (sink_state (K.written out.old) (K.write_faults out.old)) (check_text database.now) result
        (sink_state (K.written out.new) (K.write_faults out.new)) }
{
    let mut messages = Buffer::new();
    let mut signals = Buffer::new();
    let messages = messages
        .format(database.messages.items().len() as u64)
        .as_bytes();
    let signals = signals.format(signal_count(database)).as_bytes();
    write_pieces(out, &[b"ok ", messages, b" ", signals, b"\n"])
}

/// Checks the file of this name.
pub(crate) fn check<B: Library, K: Sink>(
    alloc: Global,
    library: &mut B,
    name: &str,
    out: &mut K,
) -> Status
    ensures ends { EndsCheck name.now (seen
        (library_state (B.files library.old) (B.open_faults library.old) (B.more_faults library.old) (B.strays library.old))
        (library_state (B.files library.new) (B.open_faults library.new) (B.more_faults library.new) (B.strays library.new))
        (sink_state (K.written out.old) (K.write_faults out.old)) (sink_state (K.written out.new) (K.write_faults out.new))
        []) result }
    ensures keeps { Keeps (seen
        (library_state (B.files library.old) (B.open_faults library.old) (B.more_faults library.old) (B.strays library.old))
        (library_state (B.files library.new) (B.open_faults library.new) (B.more_faults library.new) (B.strays library.new))
        (sink_state (K.written out.old) (K.write_faults out.old)) (sink_state (K.written out.new) (K.write_faults out.new)) []) }
{
    match check_file(alloc, library, name) {
        Ok(valid) => status_of(Ended::Write(write_counts(out, valid.database()))),
        Err(refused) => status_of(Ended::Check(refused)),
    }
}
