//! A signal's value with its texts, in buffers.

ghost use Rattle.std.specs.Prelude.{◌≡◌, IfOk, OnOk};
ghost use Rattle.exact_scale.specs.Limits.{IsRawValue};
ghost use Rattle.bench_model.specs.Meaning.{physical};
ghost use Rattle.image_words.specs.Knowledge.{SomeFits};
ghost use Rattle.image_words.specs.Reading.{Learned, EachHas, EachIs, TextAt, OptionalTextAt, UnitAt, SignalOf};
ghost use Rattle.image_words.specs.Buffers.{if_there, value_in};

use crate::Words;
use crate::coding::coded_value;
use crate::rows::SignalRow;
use crate::texts::append_text;
use bench_model::{Exact, SignalValue, Text};
use std::alloc::{AllocError, Global};

/// A signal's value with its texts in buffers, which are used again for the next value.
#[derive(Drop)]
pub struct ValueBuffer {
    pub name: Vec<u8>,
    pub raw: i128,
    pub value: Exact,
    pub unit: Vec<u8>,
    pub label: Vec<u8>,
    /// Whether the value has a label. Where it has none, `label` says nothing.
    pub labelled: bool,
}

impl ValueBuffer {
    /// Empty buffers, which take memory as texts come.
    pub fn new(alloc: Global) -> ValueBuffer {
        ValueBuffer {
            name: Vec::new(alloc),
            raw: 0,
            value: Exact { num: 0, k: 0 },
            unit: Vec::new(alloc),
            label: Vec::new(alloc),
            labelled: false,
        }
    }

    /// The label's text, where there is one.
    fn copy_label(&self, alloc: Global) -> Result<Option<Text>, AllocError>
        ensures { IfOk result (λ label. label ≡ if_there self.now.labelled self.now.label.items) }
    {
        if !self.labelled {
            return Ok(None);
        }
        let label = Text::of(alloc, self.label.as_slice())?;
        Ok(Some(label))
    }

    /// The value with texts of its own.
    pub fn copy(&self, alloc: Global) -> Result<SignalValue, AllocError>
        ensures { IfOk result (λ value. value ≡ value_in self.now) }
    {
        let name = Text::of(alloc, self.name.as_slice())?;
        let unit = Text::of(alloc, self.unit.as_slice())?;
        let label = self.copy_label(alloc)?;
        Ok(SignalValue {
            name,
            raw: self.raw,
            value: self.value,
            unit,
            label,
        })
    }
}

/// Reads the text of a reference, in place of what stood in the buffer.
pub(crate) fn read_text<W: Words>(
    words: &mut W,
    reference: u64,
    buffer: &mut Vec<u8>,
) -> Result<(), AllocError>
    requires some { SomeFits (W.knows words.old) }
    requires text { EachHas (W.knows words.old) (TextAt reference) }
    ensures learned { Learned W.knows W.reads words.old words.new }
    ensures text { OnOk result (EachIs (W.knows words.new) (TextAt reference)
        (λ image own. buffer.new.items ≡ own)) }
{
    buffer.clear();
    append_text(words, reference, buffer)?;
    Ok(())
}

/// Reads the text of a reference, and says whether there is one: reference 0 is none.
fn read_label<W: Words>(
    words: &mut W,
    reference: u64,
    buffer: &mut Vec<u8>,
) -> Result<bool, AllocError>
    requires some { SomeFits (W.knows words.old) }
    requires text { EachHas (W.knows words.old) (OptionalTextAt reference) }
    ensures learned { Learned W.knows W.reads words.old words.new }
    ensures text { IfOk result (λ there. EachIs (W.knows words.new) (OptionalTextAt reference)
        (λ image own. if_there there buffer.new.items ≡ own)) }
{
    if reference == 0 {
        return Ok(false);
    }
    read_text(words, reference, buffer)?;
    Ok(true)
}

/// Reads the unit of a reference; an empty one where the reference is 0.
fn read_unit<W: Words>(
    words: &mut W,
    reference: u64,
    buffer: &mut Vec<u8>,
) -> Result<(), AllocError>
    requires some { SomeFits (W.knows words.old) }
    requires text { EachHas (W.knows words.old) (UnitAt reference) }
    ensures learned { Learned W.knows W.reads words.old words.new }
    ensures text { OnOk result (EachIs (W.knows words.new) (UnitAt reference)
        (λ image own. buffer.new.items ≡ own)) }
{
    if reference == 0 {
        buffer.clear();
        return Ok(());
    }
    read_text(words, reference, buffer)?;
    Ok(())
}

/// Reads the value of the signal of a row that has this raw value.
pub(crate) fn read_value<W: Words>(
    words: &mut W,
    row: SignalRow,
    raw: i128,
    value: &mut ValueBuffer,
) -> Result<(), AllocError>
    requires some { SomeFits (W.knows words.old) }
    requires signal { EachHas (W.knows words.old) (SignalOf row) }
    requires raw { IsRawValue raw }
    ensures learned { Learned W.knows W.reads words.old words.new }
    ensures value { OnOk result (EachIs (W.knows words.new) (SignalOf row)
        (λ image s. value_in value.new ≡ physical s raw)) }
{
    let coded = coded_value(words, row.coding, raw);
    value.raw = raw;
    value.value = coded.value;
    read_text(words, row.name, &mut value.name)?;
    read_unit(words, coded.unit, &mut value.unit)?;
    let labelled = read_label(words, coded.label, &mut value.label)?;
    value.labelled = labelled;
    Ok(())
}
