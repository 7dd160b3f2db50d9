//! The notes on signals, for looking them up.

ghost use Rattle.std.specs.Prelude.{◌≡◌, ◌++◌, ◌∷◌, ◌&&◌, [], IfOk, OnOk, List, ℕ, filter, if◌then◌else◌};
ghost use Rattle.std.specs.Str.{bytes_eq};
ghost use Rattle.bench_model.specs.declared.database.Key.{Key};
ghost use Rattle.dbc_grammar.specs.Naming.{key_of, same_key, names_signal};
ghost use Rattle.dbc_grammar.specs.Noted.{seen_notes, notes_seen};

use crate::keys::{is_named_id, key_of};
use crate::statement::Note;
use bench_model::Key;
use std::alloc::{AllocError, Global};
use std::collections::BTreeMap;
use token_forms::token_text;

/// The notes on each signal, in file order.
#[derive(Debug, Drop)]
pub struct NoteIndex<'a> {
    notes: BTreeMap<((bool, u32), &'a [u8]), Vec<&'a Note>>,
}

impl<'a> NoteIndex<'a> {
    /// Takes out the notes on the signal of this name.
    fn take(&mut self, alloc: Global, key: Key, name: &'a [u8]) -> Vec<&'a Note>
        ensures taken { seen_notes result.items ≡ notes_seen self.old.notes key name.now }
        ensures left { (k : Key) (n : List ℕ) → notes_seen self.new.notes k n ≡
            (if same_key key k && bytes_eq name.now n then [] else notes_seen self.old.notes k n) }
    {
        match self.notes.remove(&((key.extended, key.id), name)) {
            Some(list) => list,
            None => Vec::new(alloc),
        }
    }

    /// Adds a note on the signal of this name.
    fn add(
        &mut self,
        alloc: Global,
        key: Key,
        name: &'a [u8],
        note: &'a Note,
    ) -> Result<(), AllocError>
        ensures { OnOk result ((k : Key) (n : List ℕ) → notes_seen self.new.notes k n ≡
            notes_seen self.old.notes k n ++ (if same_key key k && bytes_eq name.now n then note.now ∷ [] else [])) }
    {
        let mut list = self.take(alloc, key, name);
        list.push(note)?;
        self.notes.insert(((key.extended, key.id), name), list)?;
        Ok(())
    }

    /// Adds a note, where its identifier names a message.
    fn add_named(
        &mut self,
        alloc: Global,
        bytes: &'a [u8],
        note: &'a Note,
    ) -> Result<(), AllocError>
        ensures { OnOk result ((k : Key) (n : List ℕ) → notes_seen self.new.notes k n ≡
            notes_seen self.old.notes k n ++ filter (names_signal bytes.now k n) (note.now ∷ [])) }
    {
        if is_named_id(note.id) {
            self.add(alloc, key_of(note.id), token_text(bytes, note.signal), note)?;
        }
        Ok(())
    }

    /// The index of these notes.
    pub fn of(
        alloc: Global,
        bytes: &'a [u8],
        notes: &'a [Note],
    ) -> Result<NoteIndex<'a>, AllocError>
        ensures { IfOk result (λ index. (k : Key) (n : List ℕ) →
            notes_seen index.notes k n ≡ filter (names_signal bytes.now k n) notes.now) }
    {
        let mut index = NoteIndex {
            notes: BTreeMap::new(alloc),
        };
        for note in notes {
            index.add_named(alloc, bytes, note)?;
        }
        Ok(index)
    }

    /// The notes on the signal of this name in the message with this key.
    pub fn on(&self, alloc: Global, key: Key, name: &'a [u8]) -> Result<Vec<&'a Note>, AllocError>
        ensures { IfOk result (λ list. seen_notes list.items ≡ notes_seen self.now.notes key name.now) }
    {
        match self.notes.get(&((key.extended, key.id), name)) {
            Some(list) => Vec::from_slice(alloc, list.as_slice()),
            None => Ok(Vec::new(alloc)),
        }
    }
}
