//! Printing to a sink.

ghost use Rattle.std.specs.Prelude.{◌≡◌, IsErrOf};
ghost use Rattle.port_io.specs.Causes.{Explains};
ghost use Rattle.subscriber_text.specs.ItemText.{item_text, header_text};
ghost use Rattle.subscriber_text.specs.Prints.{Prints};

use crate::{PrintRefused, Wants, append};
use bench_model::Item;
use port_io::{Sink, write_piece};
use std::alloc::Global;

/// Prints what is wanted of an item. Out of memory comes before the sink is asked anything. Callers that print
/// many items at once `append` them to one buffer.
pub fn print<K: Sink>(
    alloc: Global,
    wants: &Wants,
    item: &Item,
    sink: &mut K,
) -> Result<(), PrintRefused>
    ensures written { Prints (K.written sink.old) (K.written sink.new) result (item_text wants.now item.now) }
    ensures cause { Explains (K.write_faults sink.old) (K.write_faults sink.new)
        (IsErrOf result PrintRefused.WriteFault) }
    ensures other { K.other sink.new ≡ K.other sink.old }
    ensures memory { IsErrOf result PrintRefused.Memory → sink.new ≡ sink.old }
{
    let mut text = Vec::new(alloc);
    append(wants, item, &mut text)?;
    write_piece(sink, &text)?;
    Ok(())
}

/// Prints what a session's text begins with: in format 2 a line that names it, in format 1 nothing. This takes
/// no memory.
pub fn header<K: Sink>(wants: &Wants, sink: &mut K) -> Result<(), PrintRefused>
    ensures written { Prints (K.written sink.old) (K.written sink.new) result (header_text wants.now) }
    ensures cause { Explains (K.write_faults sink.old) (K.write_faults sink.new)
        (IsErrOf result PrintRefused.WriteFault) }
    ensures other { K.other sink.new ≡ K.other sink.old }
    ensures no_memory { IsErrOf result PrintRefused.Memory → ⊥ }
{
    let text: &[u8] = if wants.format() == 2 {
        b"sigserve 2\n"
    } else {
        b""
    };
    write_piece(sink, text)?;
    Ok(())
}
