//! One want.

ghost use Rattle.std.specs.Prelude.{◌≡◌, IfOk};
ghost use Rattle.subscriber_text.specs.WantView.{name_view, name_of, name_cmp};

use std::alloc::{AllocError, Global};
use std::cmp::Ordering;

/// A want: of a bus, of the messages of a name, or of a signal of them. Wants are in order by their bus,
/// then their message, then their signal; none comes before every name.
#[derive(Debug, PartialEq, Eq, PartialOrd, Ord, Drop)]
pub(crate) struct NamedWant {
    /// The bus's place.
    pub bus: usize,
    pub message: Option<Vec<u8>>,
    pub signal: Option<Vec<u8>>,
}

impl NamedWant {
    ghost use Rattle.subscriber_text.specs.WantView.{want_view, message_cmp, want_cmp};

    /// An equal want.
    pub(crate) fn copy(&self, alloc: Global) -> Result<NamedWant, AllocError>
        ensures { IfOk result (λ want. want_view want ≡ want_view self.now) }
    {
        Ok(NamedWant {
            bus: self.bus,
            message: name_copy(alloc, &self.message)?,
            signal: name_copy(alloc, &self.signal)?,
        })
    }

    /// How the want compares with those of this bus, and of this message or none.
    pub(crate) fn message_order(&self, bus: usize, message: Option<&[u8]>) -> Ordering
        ensures { result ≡ message_cmp (want_view self.now) (bus, name_of message.entry) }
    {
        match self.bus.cmp(&bus) {
            Ordering::Equal => name_order(&self.message, message),
            unequal => unequal,
        }
    }

    /// How the want compares with that of this bus, of this message or none, and of this signal or none.
    pub(crate) fn order(
        &self,
        bus: usize,
        message: Option<&[u8]>,
        signal: Option<&[u8]>,
    ) -> Ordering
        ensures { result ≡ want_cmp (want_view self.now) (record {
          bus = bus;
          message = name_of message.entry;
          signal = name_of signal.entry;
        }) }
    {
        match self.message_order(bus, message) {
            Ordering::Equal => name_order(&self.signal, signal),
            unequal => unequal,
        }
    }
}

/// An equal name, or none.
fn name_copy(alloc: Global, name: &Option<Vec<u8>>) -> Result<Option<Vec<u8>>, AllocError>
    ensures { IfOk result (λ copy. name_view copy ≡ name_view name.now) }
{
    match name {
        None => Ok(None),
        Some(bytes) => Ok(Some(Vec::from_slice(alloc, bytes)?)),
    }
}

/// How a name, or none, compares with another.
fn name_order(name: &Option<Vec<u8>>, other: Option<&[u8]>) -> Ordering
    ensures { result ≡ name_cmp (name_view name.now) (name_of other.entry) }
{
    match (name, other) {
        (None, None) => Ordering::Equal,
        (None, Some(_)) => Ordering::Less,
        (Some(_), None) => Ordering::Greater,
        (Some(name), Some(other)) => name.as_slice().cmp(other),
    }
}
