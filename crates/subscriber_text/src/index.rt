//! An ordered index of wants.

use crate::want::NamedWant;
use std::alloc::{AllocError, Global};
use std::marker::Model;

/// Wants in order, for looking them up. Contracts see it as their list.
#[derive(Debug, Drop)]
pub(crate) struct WantIndex {
    sorted: Vec<NamedWant>,
}

impl Model for WantIndex {
    ghost use Rattle.std.specs.Prelude.{List};
    ghost use Rattle.std.specs.List.Sorted.{IsSorted};
    ghost use Rattle.subscriber_text.specs.Wants.{Want};
    ghost use Rattle.subscriber_text.specs.WantView.{wants_view, want_cmp};

    ghost Value = { List Want };

    ghost view = { λ a. wants_view a.sorted.items };

    ghost invariant = { λ a. IsSorted want_cmp (wants_view a.sorted.items) };
}

impl WantIndex {
    ghost use Rattle.std.specs.Prelude.{◌≡◌, IfOk};
    ghost use Rattle.std.specs.List.{list_any};
    ghost use Rattle.std.specs.List.Sorted.{IsPermutation};
    ghost use Rattle.subscriber_text.specs.Wants.{names_bus, names_message, names_signal};
    ghost use Rattle.subscriber_text.specs.WantView.{wants_view, name_of};

    /// The index of these wants.
    pub(crate) fn of(alloc: Global, wants: &[NamedWant]) -> Result<WantIndex, AllocError>
        ensures { IfOk result (λ index. IsPermutation (wants_view wants.now) index) }
    {
        let mut sorted = Vec::new(alloc);
        for want in wants {
            sorted.push(want.copy(alloc)?)?;
        }
        sorted.sort()?;
        Ok(WantIndex { sorted })
    }

    /// Whether some want names this bus.
    pub(crate) fn names_bus(&self, bus: usize) -> bool
        ensures { result ≡ list_any (names_bus bus) self.now }
    {
        self.sorted
            .binary_search_by(|want| want.bus.cmp(&bus))
            .is_ok()
    }

    /// Whether some want names this bus, and this message of it or none.
    pub(crate) fn names_message(&self, bus: usize, message: Option<&[u8]>) -> bool
        ensures { result ≡ list_any (names_message bus (name_of message.entry)) self.now }
    {
        self.sorted
            .binary_search_by(|want| want.message_order(bus, message))
            .is_ok()
    }

    /// Whether some want names this bus, this message of it or none, and this signal of that or none.
    pub(crate) fn names_signal(
        &self,
        bus: usize,
        message: Option<&[u8]>,
        signal: Option<&[u8]>,
    ) -> bool
        ensures { result ≡ list_any (names_signal bus (name_of message.entry)
            (name_of signal.entry)) self.now }
    {
        self.sorted
            .binary_search_by(|want| want.order(bus, message, signal))
            .is_ok()
    }
}
