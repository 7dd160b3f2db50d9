//! Writing pieces.

ghost use Rattle.std.specs.Prelude.{◌≡◌};
ghost use Rattle.bus_text.specs.Prefixes.{sink_state};
ghost use Rattle.bench_server.specs.Pieces.{WritesText, joined};

use port_io::{Failed, Sink, write_piece};

/// Writes pieces one after another, until the sink fails.
pub(crate) fn write_pieces<K: Sink>(out: &mut K, pieces: &[&[u8]]) -> Result<(), Failed>
    ensures text { WritesText (sink_state (K.written out.old) (K.write_faults out.old)) (joined pieces.now) result
        (sink_state (K.written out.new) (K.write_faults out.new)) }
{
    for piece in pieces {
        write_piece(out, piece)?;
    }
    Ok(())
}
