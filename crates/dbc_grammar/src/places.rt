//! The first message with a key, and the first signal with a name.

ghost use Rattle.std.specs.Prelude.{◌≡◌, IfOk, IfNone, OnOk, List, ℕ, Some, None, if◌then◌else◌};
ghost use Rattle.std.specs.Str.{bytes_eq};
ghost use Rattle.bench_model.specs.declared.database.Key.{Key};
ghost use Rattle.dbc_grammar.specs.Forms.{◌<|>◌};
ghost use Rattle.dbc_grammar.specs.Naming.{same_key, is_place, place_of_key, place_of_name};
ghost use Rattle.dbc_grammar.specs.Places.{message_place, signal_place};

use crate::keys::key_of;
use crate::statement::{MessageForm, SignalForm};
use bench_model::Key;
use std::alloc::{AllocError, Global};
use std::collections::BTreeMap;
use token_forms::token_text;

/// The place of the first message with each key.
#[derive(Debug, Drop)]
pub struct MessagePlaces {
    places: BTreeMap<(bool, u32), usize>,
}

impl MessagePlaces {
    /// Adds a message at this place, unless one with its key is there.
    fn add(&mut self, key: Key, place: usize) -> Result<(), AllocError>
        ensures { OnOk result ((q : Key) → message_place self.new.places q ≡
            (message_place self.old.places q <|> (if same_key key q then Some place else None))) }
    {
        if self.places.get(&(key.extended, key.id)).is_none() {
            self.places.insert((key.extended, key.id), place)?;
        }
        Ok(())
    }

    /// The places of these messages.
    pub fn of(alloc: Global, messages: &[MessageForm]) -> Result<MessagePlaces, AllocError>
        ensures { IfOk result (λ places. (q : Key) → message_place places.places q ≡ place_of_key q messages.now) }
    {
        let mut places = MessagePlaces {
            places: BTreeMap::new(alloc),
        };
        for (place, message) in messages.iter().enumerate() {
            places.add(key_of(message.heading.id), place)?;
        }
        Ok(places)
    }

    /// Whether the message at this place is the first with its key.
    pub fn is_first(&self, place: usize, key: Key) -> bool
        ensures { result ≡ is_place place (message_place self.now.places key) }
    {
        match self.places.get(&(key.extended, key.id)) {
            Some(first) => place == *first,
            None => false,
        }
    }
}

/// The place of the first signal with each name.
#[derive(Debug, Drop)]
pub struct SignalPlaces<'a> {
    places: BTreeMap<&'a [u8], usize>,
}

impl<'a> SignalPlaces<'a> {
    /// Adds a signal at this place, unless one of its name is there.
    fn add(&mut self, name: &'a [u8], place: usize) -> Result<(), AllocError>
        ensures { OnOk result ((q : List ℕ) → signal_place self.new.places q ≡
            (signal_place self.old.places q <|> (if bytes_eq name.now q then Some place else None))) }
    {
        if self.places.get(name).is_none() {
            self.places.insert(name, place)?;
        }
        Ok(())
    }

    /// The places of these signals.
    pub fn of(
        alloc: Global,
        bytes: &'a [u8],
        signals: &[SignalForm],
    ) -> Result<SignalPlaces<'a>, AllocError>
        ensures { IfOk result (λ places. (q : List ℕ) → signal_place places.places q ≡ place_of_name bytes.now q signals.now) }
    {
        let mut places = SignalPlaces {
            places: BTreeMap::new(alloc),
        };
        for (place, signal) in signals.iter().enumerate() {
            places.add(token_text(bytes, signal.name), place)?;
        }
        Ok(places)
    }

    /// The place of the first signal with this name.
    pub fn place_of(&self, name: &[u8]) -> Option<usize>
        ensures { result ≡ signal_place self.now.places name.now }
    {
        self.places.get(name).copied()
    }

    /// Whether the signal at this place is the first with this name.
    pub fn is_first(&self, name: &[u8], place: usize) -> bool
        ensures { result ≡ is_place place (signal_place self.now.places name.now) }
    {
        match self.places.get(name) {
            Some(first) => place == *first,
            None => false,
        }
    }
}
