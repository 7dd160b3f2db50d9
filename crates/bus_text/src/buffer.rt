//! Text on its way to a sink.
ghost use Rattle.std.specs.Prelude.{◌≡◌, ◌<◌, [], length, IfOk, OnOk, IsErrOf};
ghost use Rattle.port_io.specs.Causes.{HasCause};
ghost use Rattle.subscriber_text.specs.ItemText.{item_text};
ghost use Rattle.bus_text.specs.Buffering.{buffer_limit, output, Buffers, PrintsText};
ghost use Rattle.bus_text.specs.Prefixes.{sink_state, WritesPrefix};

use bench_model::Item;
use port_io::{Failed, Sink};
use std::alloc::{AllocError, Global};
use std::marker::Model;
use subscriber_text::{PrintRefused, Wants, append};

/// Text is written as soon as so many bytes are pending.
const LIMIT: usize = 65_536;

/// The room that a buffer takes: the bytes that may be pending, and behind them a record.
const ROOM: usize = 69_632;

/// A buffer of text that is to be written. Contracts see it as the text that is pending. A record that does not fit
/// makes it longer.
#[derive(Debug, Drop)]
pub struct TextBuffer {
    text: Vec<u8>,
}

impl Model for TextBuffer {
    ghost use Rattle.std.specs.Prelude.{List, ℕ};

    ghost Value = { List ℕ };

    ghost view = { λ b. b.text.items };
}

/// Writes a text until the sink fails, and answers how many bytes of it were written.
fn write_prefix<K: Sink>(out: &mut K, text: &[u8]) -> (usize, Result<(), Failed>)
    ensures prefix { WritesPrefix (sink_state (K.written out.old) (K.write_faults out.old)) text.now result.0 result.1
        (sink_state (K.written out.new) (K.write_faults out.new)) }
    ensures other { K.other out.new ≡ K.other out.old }
{
    let mut count = 0;
    'pieces: while count < text.len() {
        match out.write(&text[count..]) {
            Ok(more) => count += more,
            Err(failed) => return (count, Err(failed)),
        }
    }
    (count, Ok(()))
}

impl TextBuffer {
    /// A buffer with nothing in it. It takes its room now.
    pub fn new(alloc: Global) -> Result<TextBuffer, AllocError>
        ensures { IfOk result (λ buffer. buffer ≡ []) }
    {
        Ok(TextBuffer {
            text: Vec::with_capacity(alloc, ROOM)?,
        })
    }

    /// Writes all that is pending. At `Failed` what was not written is still pending.
    pub fn flush<K: Sink>(&mut self, out: &mut K) -> Result<(), Failed>
        ensures kept { Buffers (output (K.written out.old) (K.write_faults out.old) self.old) []
            (output (K.written out.new) (K.write_faults out.new) self.new) }
        ensures all { OnOk result (self.new ≡ []) }
        ensures cause { HasCause (K.write_faults out.old) (K.write_faults out.new) result }
        ensures other { K.other out.new ≡ K.other out.old }
    {
        let (count, written) = write_prefix(out, &self.text);
        let rest = self.text.len() - count;
        self.text.copy_within(count.., 0);
        self.text.truncate(rest);
        written
    }

    /// Appends the text of what is wanted of an item, and writes all that is pending where that is much. After out
    /// of memory nothing was appended or written.
    pub fn append<K: Sink>(
        &mut self,
        wants: &Wants,
        item: &Item,
        out: &mut K,
    ) -> Result<(), PrintRefused>
        ensures prints { PrintsText (item_text wants.now item.now)
            (output (K.written out.old) (K.write_faults out.old) self.old) result
            (output (K.written out.new) (K.write_faults out.new) self.new) }
        ensures short { OnOk result (length self.new < buffer_limit) }
        ensures memory { IsErrOf result PrintRefused.Memory → (self.new ≡ self.old)
            × (K.written out.new ≡ K.written out.old) }
        ensures other { K.other out.new ≡ K.other out.old }
    {
        append(wants, item, &mut self.text)?;
        self.flush_full(out)?;
        Ok(())
    }

    /// Appends a text, and writes all that is pending where that is much. After out of memory nothing was appended or
    /// written.
    pub(crate) fn append_text<K: Sink>(
        &mut self,
        text: &[u8],
        out: &mut K,
    ) -> Result<(), PrintRefused>
        ensures prints { PrintsText text.now
            (output (K.written out.old) (K.write_faults out.old) self.old) result
            (output (K.written out.new) (K.write_faults out.new) self.new) }
        ensures short { OnOk result (length self.new < buffer_limit) }
        ensures memory { IsErrOf result PrintRefused.Memory → (self.new ≡ self.old)
            × (K.written out.new ≡ K.written out.old) }
        ensures other { K.other out.new ≡ K.other out.old }
    {
        self.text.extend_from_slice(text)?;
        self.flush_full(out)?;
        Ok(())
    }

    /// Writes all that is pending where that is much.
    fn flush_full<K: Sink>(&mut self, out: &mut K) -> Result<(), Failed>
        ensures kept { Buffers (output (K.written out.old) (K.write_faults out.old) self.old) []
            (output (K.written out.new) (K.write_faults out.new) self.new) }
        ensures short { OnOk result (length self.new < buffer_limit) }
        ensures cause { HasCause (K.write_faults out.old) (K.write_faults out.new) result }
        ensures other { K.other out.new ≡ K.other out.old }
    {
        if self.text.len() < LIMIT {
            return Ok(());
        }
        self.flush(out)
    }
}
