//! The text of a line's own record, of which a message's is printed as its parts are read from the words.
ghost use Rattle.std.specs.Prelude.{◌≡◌, ◌++◌, [], OnOk};
ghost use Rattle.bench_model.specs.declared.reading.Item.TheVariants as Items;
ghost use Rattle.image_words.specs.Buffers.{if_there, value_in};
ghost use Rattle.subscriber_text.specs.ItemText.{item_text};
ghost use Rattle.subscriber_text.specs.PartsView.{signal_view};
ghost use Rattle.subscriber_text.specs.WantView.{name_of};

use bench_model::{Item, Reading};
use image_words::{ValueBuffer, Visit};
use std::alloc::{AllocError, Global};
use subscriber_text::{
    RecordPlace, SignalParts, WantedSignals, Wants, append, append_message, append_wanted_signal,
};

/// Prints the own record of a line to a text that is used again for the next line, as far as it is wanted. It may be
/// given the record, or as a visitor the parts of a message's.
#[derive(Drop)]
pub(crate) struct RecordPrinter<'a> {
    pub(crate) wants: &'a Wants,
    /// Where the record is.
    place: RecordPlace,
    /// The name of the message.
    message: Vec<u8>,
    /// Which of its signals are wanted.
    signals: WantedSignals,
    pub(crate) text: Vec<u8>,
}

impl<'a> RecordPrinter<'a> {
    /// A printer of what these wants cover.
    pub(crate) fn new(alloc: Global, wants: &'a Wants) -> RecordPrinter<'a>
        ensures { result.wants.now ≡ wants.now }
    {
        RecordPrinter {
            wants,
            place: RecordPlace {
                bus: 0,
                number: 0,
                version: 0,
                micros: 0,
            },
            message: Vec::new(alloc),
            signals: WantedSignals::Nothing,
            text: Vec::new(alloc),
        }
    }

    /// Begins the text of the record at this place.
    pub(crate) fn begin(&mut self, place: RecordPlace)
        ensures wants { self.new.wants.now ≡ self.old.wants.now }
        ensures place { self.new.place ≡ place }
        ensures text { self.new.text.items ≡ [] }
    {
        self.place = place;
        self.text.clear();
    }

    /// Appends the text of a record.
    pub(crate) fn append(&mut self, reading: Reading) -> Result<(), AllocError>
        ensures wants { self.new.wants.now ≡ self.old.wants.now }
        ensures text { OnOk result (self.new.text.items ≡ self.old.text.items
            ++ item_text self.old.wants.now (Items.Reading reading)) }
    {
        append(self.wants, &Item::Reading { reading }, &mut self.text)
    }
}

/// The label in buffers, where there is one.
fn label_of(value: &ValueBuffer) -> Option<&[u8]>
    ensures { name_of result ≡ if_there value.now.labelled value.now.label.items }
{
    if value.labelled {
        Some(value.label.as_slice())
    } else {
        None
    }
}

/// The parts of a value in buffers.
fn parts_of(value: &ValueBuffer) -> SignalParts<'_>
    ensures { signal_view result ≡ value_in value.now }
{
    SignalParts {
        name: value.name.as_slice(),
        raw: value.raw,
        value: value.value,
        unit: value.unit.as_slice(),
        label: label_of(value),
    }
}

impl Visit for RecordPrinter<'_> {
    ghost use Rattle.bus_text.specs.PrinterView.{PrintsName, PrintsValue};

    ghost names = { λ old name new. PrintsName old name new };

    ghost takes = { λ old value new. PrintsValue old value new };

    fn message(&mut self, name: &[u8]) -> Result<(), AllocError> {
        self.message.clear();
        self.message.extend_from_slice(name)?;
        self.signals = append_message(self.wants, self.place, name, &mut self.text)?;
        Ok(())
    }

    fn signal(&mut self, value: &ValueBuffer) -> Result<(), AllocError> {
        append_wanted_signal(
            self.wants,
            self.place.bus,
            self.message.as_slice(),
            self.signals,
            parts_of(value),
            &mut self.text,
        )
    }
}
