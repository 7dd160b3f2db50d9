//! The signals and the links of messages.

ghost use Rattle.std.specs.Prelude.{◌≡◌, IfOk, IfErr};
ghost use Rattle.bench_model.specs.declared.database.Key.{Key};
ghost use Rattle.dbc_grammar.specs.declared.statement.MessageForm.{MessageForm};
ghost use Rattle.dbc_grammar.specs.Naming.{key_of, noted_in, notes_on};
ghost use Rattle.dbc_grammar.specs.Gather.{IsSignalOf};
ghost use Rattle.dbc_grammar.specs.Contract.{all_signals};
ghost use Rattle.dbc_grammar.specs.Noted.{seen_notes, notes_seen};
ghost use Rattle.dbc_grammar.specs.Places.{signal_place};
ghost use Rattle.dbc_grammar.specs.Rows.{IsWideAt, IsWideFault, IsRowOf, AreRowsOf};

use crate::DbcFault;
use crate::keys::key_of;
use crate::labels::{is_float, labels_of, push_links};
use crate::notes::NoteIndex;
use crate::places::{MessagePlaces, SignalPlaces};
use crate::row::Row;
use crate::statement::{MessageForm, Note, SignalForm};
use bench_model::{Coding, Key, Signal, Text};
use multiplex_tree::List;
use std::alloc::{AllocError, Global};
use std::collections::VecDeque;
use token_forms::{NumberFault, scale_of, string_content, token_text};

/// The signal of a statement and the notes on it.
fn signal_of(
    alloc: Global,
    bytes: &[u8],
    utf8: bool,
    form: &SignalForm,
    notes: &[&Note],
) -> Result<Signal, DbcFault>
    ensures ok { IfOk result (IsSignalOf bytes.now utf8 form.now (seen_notes notes.now)) }
    ensures fault { IfErr result (IsWideAt bytes.now form.now) }
{
    let scale = match scale_of(alloc, bytes, form.scaling.factor, form.scaling.offset) {
        Ok(scale) => scale,
        Err(NumberFault::Wide) => return Err(DbcFault::Scale { at: form.at }),
        Err(NumberFault::Memory) => return Err(DbcFault::Memory),
    };
    let labels = List::of(labels_of(alloc, bytes, utf8, notes)?);
    let unit = Text::from_vec(string_content(alloc, bytes, form.unit, utf8)?);
    Ok(Signal {
        name: Text::of(alloc, token_text(bytes, form.name))?,
        start: form.place.start,
        size: form.place.size,
        order: form.place.order,
        signed: form.place.signed,
        float: is_float(notes),
        coding: Coding::Scaled {
            scale,
            unit,
            labels,
        },
    })
}

/// The notes on the signal at this place of a message with this key; `named` says whether statements name the message.
fn notes_on<'a>(
    alloc: Global,
    bytes: &'a [u8],
    index: &NoteIndex<'a>,
    places: &SignalPlaces<'a>,
    named: bool,
    key: Key,
    place: usize,
    form: &SignalForm,
) -> Result<Vec<&'a Note>, AllocError>
    ensures { IfOk result (λ list. seen_notes list.items ≡ notes_on bytes.now (notes_seen index.now.notes)
        (signal_place places.now.places) named key place form.now) }
{
    let name = token_text(bytes, form.name);
    if named && places.is_first(name, place) {
        index.on(alloc, key, name)
    } else {
        Ok(Vec::new(alloc))
    }
}

/// The signals of a message, their marks and their links.
fn row_of<'a>(
    alloc: Global,
    bytes: &'a [u8],
    utf8: bool,
    index: &NoteIndex<'a>,
    named: bool,
    message: &MessageForm,
) -> Result<Row, DbcFault>
    ensures ok { IfOk result (IsRowOf bytes.now utf8 (notes_seen index.now.notes) named message.now) }
    ensures fault { IfErr result (IsWideFault bytes.now message.now.signals) }
{
    let forms = message.signals.items();
    let key = key_of(message.heading.id);
    let places = SignalPlaces::of(alloc, bytes, forms)?;
    let mut signals = Vec::new(alloc);
    let mut marks = Vec::new(alloc);
    let mut links = Vec::new(alloc);
    for (place, form) in forms.iter().enumerate() {
        let notes = notes_on(alloc, bytes, index, &places, named, key, place, form)?;
        signals.push(signal_of(alloc, bytes, utf8, form, &notes)?)?;
        push_links(alloc, bytes, &places, place, &notes, &mut links)?;
        marks.push(form.mark)?;
    }
    Ok(Row {
        signals,
        marks,
        links,
    })
}

/// The rows of all messages.
pub fn rows_of<'a>(
    alloc: Global,
    bytes: &'a [u8],
    utf8: bool,
    messages: &[MessageForm],
    notes: &'a [Note],
) -> Result<VecDeque<Row>, DbcFault>
    ensures ok { IfOk result (λ rows. AreRowsOf bytes.now utf8 (noted_in bytes.now notes.now) messages.now rows.items) }
    ensures fault { IfErr result (IsWideFault bytes.now (all_signals messages.now)) }
{
    let index = NoteIndex::of(alloc, bytes, notes)?;
    let places = MessagePlaces::of(alloc, messages)?;
    let mut rows = VecDeque::new(alloc);
    for (place, message) in messages.iter().enumerate() {
        let named = places.is_first(place, key_of(message.heading.id));
        rows.push_back(row_of(alloc, bytes, utf8, &index, named, message)?)?;
    }
    Ok(rows)
}
