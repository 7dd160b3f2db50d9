//! What a subscriber wants.

ghost use Rattle.std.specs.Prelude.{◌≡◌, IfOk};

use crate::index::WantIndex;
use crate::want::NamedWant;
use bench_model::Text;
use std::alloc::{AllocError, Global};
use std::marker::Model;

/// The wants of a subscriber, and the format in which it is answered. Contracts see the names of the buses and
/// the wants in the order of their lines.
#[derive(Debug, Drop)]
pub struct Wants {
    format: u32,
    names: Vec<Text>,
    wants: Vec<NamedWant>,
    /// The same wants in order, for looking them up.
    index: WantIndex,
}

impl Model for Wants {
    ghost use Rattle.std.specs.List.Sorted.{IsPermutation};
    ghost use Rattle.subscriber_text.specs.Wants.{WantList};
    ghost use Rattle.subscriber_text.specs.WantView.{wants_view};

    ghost Value = { WantList };

    ghost view = { λ w. record { format = w.format; names = w.names.items; wants = wants_view w.wants.items } };

    ghost invariant = { λ w. IsPermutation (wants_view w.wants.items) w.index };
}

impl Wants {
    ghost use Rattle.std.specs.Prelude.{◌≡◌, ◌<◌, ◌&&◌, length, nat_lt, [], IfOk, Some, None, if◌then◌else◌};
    ghost use Rattle.subscriber_text.specs.ItemText.{bus_name};
    ghost use Rattle.subscriber_text.specs.Wants.{wants_bus, wants_whole_bus, wants_record, wants_all_signals, names_signal};
    ghost use Rattle.std.specs.List.{list_any};
    ghost use Rattle.subscriber_text.specs.WantView.{name_of, wants_view};

    /// These wants, of buses of these names.
    pub(crate) fn of(
        alloc: Global,
        format: u32,
        names: &[Text],
        wants: Vec<NamedWant>,
    ) -> Result<Wants, AllocError>
        ensures { IfOk result (λ w. w ≡ record {
          format = format;
          names = names.now;
          wants = wants_view
              wants.items;
        }) }
    {
        let index = WantIndex::of(alloc, &wants)?;
        Ok(Wants {
            format,
            names: names_copy(alloc, names)?,
            wants,
            index,
        })
    }

    /// Wants of everything of buses of these names, in format 1.
    pub fn all(alloc: Global, buses: &[Text]) -> Result<Wants, AllocError>
        ensures { IfOk result (λ w. w ≡ record { format = 1; names = buses.now; wants = [] }) }
    {
        Wants::of(alloc, 1, buses, Vec::new(alloc))
    }

    /// The format of the text: 1, or 2, which begins with a header and tells more of a gap.
    pub fn format(&self) -> u32
        ensures { result ≡ self.now.format }
    {
        self.format
    }

    /// Whether anything of the bus at this place is wanted; past the names of the buses nothing is.
    pub fn wants_bus(&self, bus: u32) -> bool
        ensures { result ≡ wants_bus self.now bus }
    {
        let bus = bus as usize;
        bus < self.names.len() && (self.wants.is_empty() || self.index.names_bus(bus))
    }

    /// The name of a bus, where it has one.
    fn name(&self, bus: u32) -> Option<&[u8]>
        ensures { name_of result ≡ (if nat_lt bus (length self.now.names)
            then Some (bus_name self.now bus) else None) }
    {
        let name = self.names.get(bus as usize)?;
        Some(name.bytes())
    }

    /// The name of a bus of which anything is wanted.
    pub(crate) fn wanted_bus(&self, bus: u32) -> Option<&[u8]>
        ensures { name_of result ≡ (if wants_bus self.now bus then Some (bus_name self.now bus) else None) }
    {
        if self.wants_bus(bus) {
            self.name(bus)
        } else {
            None
        }
    }

    /// The name of the bus of a record that is wanted, by the name of its message.
    pub(crate) fn wanted_record(&self, bus: u32, message: Option<&[u8]>) -> Option<&[u8]>
        ensures { name_of result ≡ (if nat_lt bus (length self.now.names) && wants_record self.now bus
            (name_of message.entry) then Some (bus_name self.now bus) else None) }
    {
        if self.wants_record(bus as usize, message) {
            self.name(bus)
        } else {
            None
        }
    }

    fn wants_whole_bus(&self, bus: usize) -> bool
        ensures { result ≡ wants_whole_bus self.now bus }
    {
        self.wants.is_empty() || self.index.names_message(bus, None)
    }

    fn wants_record(&self, bus: usize, message: Option<&[u8]>) -> bool
        ensures { result ≡ wants_record self.now bus (name_of message.entry) }
    {
        self.wants_whole_bus(bus) || self.index.names_message(bus, message)
    }

    /// Whether all signals of the records of a message, or of those that no message matched, are wanted.
    pub(crate) fn wants_all_signals(&self, bus: usize, message: Option<&[u8]>) -> bool
        ensures { result ≡ wants_all_signals self.now bus (name_of message.entry) }
    {
        self.wants_whole_bus(bus) || self.index.names_signal(bus, message, None)
    }

    /// Whether a signal is wanted by its name where not all signals are.
    pub(crate) fn names_signal(&self, bus: usize, message: Option<&[u8]>, signal: &[u8]) -> bool
        ensures { result ≡ list_any (names_signal bus (name_of message.entry)
            (Some signal.now)) self.now.wants }
    {
        self.index.names_signal(bus, message, Some(signal))
    }
}

/// Copies of names.
fn names_copy(alloc: Global, names: &[Text]) -> Result<Vec<Text>, AllocError>
    ensures { IfOk result (λ copy. copy.items ≡ names.now) }
{
    let mut copy = Vec::with_capacity(alloc, names.len())?;
    for name in names {
        copy.push(name.copy(alloc)?)?;
    }
    Ok(copy)
}
