//! `mill`: generated frames, decoded and counted.

ghost use Rattle.std.specs.Prelude.{◌≡◌, ◌≤◌, [], IfOk};
ghost use Rattle.bench_mill.specs.Totals.{mill_text};
ghost use Rattle.bench_inputs.specs.Asking.{LibraryState};
ghost use Rattle.bus_text.specs.Prefixes.{sink_state};
ghost use Rattle.bench_server.specs.Loading.{seen};
ghost use Rattle.bench_server.specs.MillOutcomes.{EndsMill};

use crate::Status;
use crate::ended::{Ended, status_of};
use crate::pieces::write_pieces;
use bench_mill::append_totals;
use port_io::Sink;
use std::alloc::{AllocError, Global};

/// The three lines of so many generated frames.
fn mill_text(alloc: Global, frames: u32) -> Result<Vec<u8>, AllocError>
    ensures { IfOk result (λ text. text.items ≡ mill_text frames) }
{
    let totals = bench_mill::mill(alloc, frames)?;
    let mut text = Vec::new(alloc);
    append_totals(&mut text, totals)?;
    Ok(text)
}

/// Decodes so many generated frames, and appends their three numbers.
pub(crate) fn mill<K: Sink>(alloc: Global, frames: u32, out: &mut K) -> Status
    ensures ends { (library : LibraryState) → EndsMill frames (seen library library
        (sink_state (K.written out.old) (K.write_faults out.old)) (sink_state (K.written out.new) (K.write_faults out.new))
        []) result }
    ensures later { K.write_faults out.old ≤ K.write_faults out.new }
{
    match mill_text(alloc, frames) {
        Ok(text) => status_of(Ended::Write(write_pieces(out, &[&text]))),
        Err(_) => status_of(Ended::Memory),
    }
}
