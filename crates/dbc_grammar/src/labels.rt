//! What the notes on a signal say: its labels, whether it is a float, and its links.

ghost use Rattle.std.specs.Prelude.{◌≡◌, ◌++◌, IfOk, OnOk, false};
ghost use Rattle.std.specs.List.{flat_map};
ghost use Rattle.dbc_grammar.specs.Gather.{labels_of_text, labels_in, float_said, float_after, links_in};
ghost use Rattle.dbc_grammar.specs.Noted.{seen_notes};
ghost use Rattle.dbc_grammar.specs.Places.{signal_place};

use crate::places::SignalPlaces;
use crate::statement::{Note, Says, ValueText};
use bench_model::{Label, Text};
use multiplex_tree::{Link, List};
use std::alloc::{AllocError, Global};
use token_forms::{string_content, token_text, whole_value};

/// Appends the label of a value text, if it makes one.
fn push_label(
    alloc: Global,
    bytes: &[u8],
    utf8: bool,
    value: ValueText,
    labels: &mut Vec<Label>,
) -> Result<(), AllocError>
    ensures { OnOk result (labels.new.items ≡ labels.old.items ++ labels_of_text bytes.now utf8 value) }
{
    if let Some(raw) = whole_value(bytes, value.number) {
        let text = Text::from_vec(string_content(alloc, bytes, value.text, utf8)?);
        labels.push(Label { raw, text })?;
    }
    Ok(())
}

/// Appends the labels of value texts.
fn push_labels(
    alloc: Global,
    bytes: &[u8],
    utf8: bool,
    texts: &[ValueText],
    labels: &mut Vec<Label>,
) -> Result<(), AllocError>
    ensures { OnOk result (labels.new.items ≡ labels.old.items ++ flat_map (labels_of_text bytes.now utf8) texts.now) }
{
    for value in texts {
        push_label(alloc, bytes, utf8, *value, labels)?;
    }
    Ok(())
}

/// Appends the labels of a note.
fn push_note_labels(
    alloc: Global,
    bytes: &[u8],
    utf8: bool,
    note: &Note,
    labels: &mut Vec<Label>,
) -> Result<(), AllocError>
    ensures { OnOk result (labels.new.items ≡ labels.old.items ++ labels_in bytes.now utf8 note.now) }
{
    match &note.says {
        Says::Texts(texts) => push_labels(alloc, bytes, utf8, texts.items(), labels),
        Says::Type(_) | Says::Below(..) => Ok(()),
    }
}

/// The labels of the notes on a signal.
pub fn labels_of(
    alloc: Global,
    bytes: &[u8],
    utf8: bool,
    notes: &[&Note],
) -> Result<Vec<Label>, AllocError>
    ensures { IfOk result (λ labels. labels.items ≡ flat_map (labels_in bytes.now utf8) (seen_notes notes.now)) }
{
    let mut labels = Vec::new(alloc);
    for note in notes {
        push_note_labels(alloc, bytes, utf8, note, &mut labels)?;
    }
    Ok(labels)
}

/// Whether the signal is a float after one more note on it.
fn float_said(float: bool, note: &Note) -> bool
    ensures { result ≡ float_said float note.now.says }
{
    match &note.says {
        Says::Type(kind) => *kind > 0,
        Says::Texts(_) | Says::Below(..) => float,
    }
}

/// Whether the notes on a signal make it a float: the last value type counts.
pub fn is_float(notes: &[&Note]) -> bool
    ensures { result ≡ float_after false (seen_notes notes.now) }
{
    let mut float = false;
    for note in notes {
        float = float_said(float, note);
    }
    float
}

/// Appends the link of a note on the signal at this place, if it makes one.
fn push_link(
    alloc: Global,
    bytes: &[u8],
    places: &SignalPlaces<'_>,
    child: usize,
    note: &Note,
    links: &mut Vec<Link>,
) -> Result<(), AllocError>
    ensures { OnOk result (links.new.items ≡ links.old.items ++
        links_in bytes.now (signal_place places.now.places) child note.now) }
{
    if let Says::Below(multiplexor, ranges) = &note.says {
        let parent = places.place_of(token_text(bytes, *multiplexor));
        let ranges = List::of(Vec::from_slice(alloc, ranges.items())?);
        links.push(Link {
            child,
            parent,
            ranges,
        })?;
    }
    Ok(())
}

/// Appends the links of the notes on the signal at this place.
pub fn push_links(
    alloc: Global,
    bytes: &[u8],
    places: &SignalPlaces<'_>,
    child: usize,
    notes: &[&Note],
    links: &mut Vec<Link>,
) -> Result<(), AllocError>
    ensures { OnOk result (links.new.items ≡ links.old.items ++
        flat_map (links_in bytes.now (signal_place places.now.places) child) (seen_notes notes.now)) }
{
    for note in notes {
        push_link(alloc, bytes, places, child, note, links)?;
    }
    Ok(())
}
