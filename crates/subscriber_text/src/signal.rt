//! The lines of signals.

ghost use Rattle.std.specs.Prelude.{◌≡◌, [], ◌∷◌, ◌++◌, OnOk};
ghost use Rattle.text_words.specs.SpacedWords.{behind_blank};
ghost use Rattle.subscriber_text.specs.ItemText.{quoted, signal_line, signal_lines};
ghost use Rattle.subscriber_text.specs.LineParts.{label_text};
ghost use Rattle.subscriber_text.specs.WantView.{name_of};
ghost use Rattle.subscriber_text.specs.PartsView.{signal_view};
ghost use Rattle.std.specs.Fmt.{signed_decimal};
ghost use Rattle.exact_scale.specs.Buffer.{Extends};
ghost use Rattle.exact_scale.specs.ShortestText.{decimal_text};

use crate::Wants;
use crate::bytes::append_quoted;
use crate::line::append_words;
use bench_model::{Exact, SignalValue, Text};
use itoa::Buffer;
use std::alloc::AllocError;
use text_words::append_word;

/// A signal's value whose texts are lent.
#[derive(Clone, Copy, Debug)]
pub struct SignalParts<'a> {
    pub name: &'a [u8],
    pub raw: i128,
    pub value: Exact,
    pub unit: &'a [u8],
    pub label: Option<&'a [u8]>,
}

impl<'a> SignalParts<'a> {
    /// The parts of a signal's value.
    fn of(signal: &'a SignalValue) -> SignalParts<'a>
        ensures { signal_view result ≡ signal.now }
    {
        SignalParts {
            name: signal.name.bytes(),
            raw: signal.raw,
            value: signal.value,
            unit: signal.unit.bytes(),
            label: label_of(&signal.label),
        }
    }
}

fn label_of(label: &Option<Text>) -> Option<&[u8]>
    ensures { name_of result ≡ label.now }
{
    match label {
        None => None,
        Some(label) => Some(label.bytes()),
    }
}

/// Appends a blank and a text in quotation marks.
fn append_text(out: &mut Vec<u8>, text: &[u8]) -> Result<(), AllocError>
    ensures ok { OnOk result (out.new.items ≡ out.old.items ++ behind_blank (quoted text.now)) }
    ensures grows { Extends out.old.items out.new.items }
{
    out.push(b' ')?;
    append_quoted(out, text)
}

/// Appends a blank and a raw value.
fn append_raw(out: &mut Vec<u8>, raw: i128) -> Result<(), AllocError>
    ensures ok { OnOk result (out.new.items ≡ out.old.items ++ behind_blank (signed_decimal raw)) }
    ensures grows { Extends out.old.items out.new.items }
{
    let mut digits = Buffer::new();
    append_word(out, digits.format(raw).as_bytes())
}

/// Appends a blank and a value.
fn append_value(out: &mut Vec<u8>, value: &Exact) -> Result<(), AllocError>
    ensures ok { OnOk result (out.new.items ≡ out.old.items ++ behind_blank
        (decimal_text value.now.num value.now.k)) }
    ensures grows { Extends out.old.items out.new.items }
{
    out.push(b' ')?;
    value.append(out)
}

/// Appends a blank and a label, where there is one, and ends the line.
fn append_label(out: &mut Vec<u8>, label: Option<&[u8]>) -> Result<(), AllocError>
    ensures ok { OnOk result (out.new.items ≡ out.old.items ++ (label_text (name_of label.entry) ++ 10 ∷ [])) }
    ensures grows { Extends out.old.items out.new.items }
{
    if let Some(label) = label {
        append_text(out, label)?;
    }
    out.push(b'\n')?;
    Ok(())
}

/// Appends the line of a signal.
pub(crate) fn append_signal(out: &mut Vec<u8>, signal: SignalParts) -> Result<(), AllocError>
    ensures ok { OnOk result (out.new.items ≡ out.old.items ++ signal_line (signal_view signal.entry)) }
    ensures grows { Extends out.old.items out.new.items }
{
    append_words(out, b"s", &[signal.name])?;
    append_raw(out, signal.raw)?;
    append_value(out, &signal.value)?;
    append_text(out, signal.unit)?;
    append_label(out, signal.label)
}

/// Appends the lines of those signals that are wanted, of a record of this message or of none.
pub(crate) fn append_signals(
    out: &mut Vec<u8>,
    wants: &Wants,
    bus: u32,
    message: Option<&[u8]>,
    signals: &[SignalValue],
) -> Result<(), AllocError>
    ensures ok { OnOk result (out.new.items ≡ out.old.items ++ signal_lines wants.now bus
        (name_of message.entry) signals.now) }
    ensures grows { Extends out.old.items out.new.items }
{
    let bus = bus as usize;
    let all = wants.wants_all_signals(bus, message);
    for signal in signals {
        if all || wants.names_signal(bus, message, signal.name.bytes()) {
            append_signal(out, SignalParts::of(signal))?;
        }
    }
    Ok(())
}
