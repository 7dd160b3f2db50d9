//! Encodings with their scalings and texts.

ghost use Rattle.std.specs.Prelude.{◌≡◌, ◌++◌, List, map, IfOk, IfErr, OnOk};
ghost use Rattle.std.specs.Str.{is_utf8};
ghost use Rattle.decisions.specs.ListDecisions.{FirstFailsFor};
ghost use Rattle.std.specs.List.{AllZip};
ghost use Rattle.ldf_grammar.specs.Scaling.{text_in, unit_or_empty, IsEntryOf, IsTooWide};
ghost use Rattle.ldf_grammar.specs.Gather.{IsCoded, AreCoded, encodings_in};
ghost use Rattle.ldf_grammar.specs.Described.{IsWideEncoding};
ghost use Rattle.ldf_grammar.specs.Lookup.{pair_of};
ghost use Rattle.ldf_grammar.specs.Answer.{IsWideOrMemory, IsFirstWide};
ghost use Rattle.ldf_grammar.specs.declared.encodings.Encoded.{Encoded as AnyEncoded};

use crate::LdfFault;
use crate::statement::{Encoding, EncodingEntry, Statement};
use bench_model::{Entry, Text};
use multiplex_tree::List;
use sig_text::Token;
use std::alloc::{AllocError, Global};
use token_forms::{NumberFault, scale_of, string_content};

/// An encoding: its name, and its entries as the model has them.
#[derive(Debug, Drop)]
pub(crate) struct Encoded {
    pub name: Token,
    pub entries: List<Entry>,
}

/// What a string says, or nothing where there is none.
fn text_of(
    alloc: Global,
    bytes: &[u8],
    utf8: bool,
    string: Option<Token>,
) -> Result<Option<Text>, AllocError>
    requires { utf8 ≡ is_utf8 bytes.now }
    ensures { IfOk result (λ words. words ≡ text_in bytes.now string) }
{
    match string {
        Some(token) => {
            let content = string_content(alloc, bytes, token, utf8)?;
            Ok(Some(Text::from_vec(content)))
        }
        None => Ok(None),
    }
}

/// What a string says, which is empty where there is none.
fn unit_of(
    alloc: Global,
    bytes: &[u8],
    utf8: bool,
    string: Option<Token>,
) -> Result<Text, AllocError>
    requires { utf8 ≡ is_utf8 bytes.now }
    ensures { IfOk result (λ unit. unit ≡ unit_or_empty (text_in bytes.now string)) }
{
    match text_of(alloc, bytes, utf8, string)? {
        Some(text) => Ok(text),
        None => Text::of(alloc, b""),
    }
}

/// The entry as the model has it.
fn entry_of(
    alloc: Global,
    bytes: &[u8],
    utf8: bool,
    entry: &EncodingEntry,
) -> Result<Entry, LdfFault>
    requires { utf8 ≡ is_utf8 bytes.now }
    ensures ok { IfOk result (IsEntryOf bytes.now entry.now) }
    ensures wide { IfErr result (IsWideOrMemory (IsTooWide bytes.now entry.now)) }
{
    match entry {
        EncodingEntry::Logical { raw, text } => Ok(Entry::Logical {
            raw: *raw,
            text: text_of(alloc, bytes, utf8, *text)?,
        }),
        EncodingEntry::Physical {
            at,
            low,
            high,
            scale,
            offset,
            unit,
        } => match scale_of(alloc, bytes, *scale, *offset) {
            Ok(scale) => Ok(Entry::Physical {
                low: *low,
                high: *high,
                scale,
                unit: unit_of(alloc, bytes, utf8, *unit)?,
            }),
            Err(NumberFault::Wide) => Err(LdfFault::Scale { at: *at }),
            Err(NumberFault::Memory) => Err(LdfFault::Memory),
        },
        EncodingEntry::Plain => Ok(Entry::Plain),
    }
}

/// The encoding with its entries as the model has them.
fn encode(alloc: Global, bytes: &[u8], utf8: bool, encoding: &Encoding) -> Result<Encoded, LdfFault>
    requires { utf8 ≡ is_utf8 bytes.now }
    ensures ok { IfOk result (λ encoded. IsCoded bytes.now encoding.now (pair_of bytes.now encoded)) }
    ensures wide { IfErr result (IsWideOrMemory (IsWideEncoding bytes.now encoding.now)) }
{
    let mut entries = Vec::new(alloc);
    for entry in encoding.entries.items() {
        entries.push(entry_of(alloc, bytes, utf8, entry)?)?;
    }
    Ok(Encoded {
        name: encoding.name,
        entries: List::of(entries),
    })
}

/// The encodings of a section behind those so far.
fn add_encodings(
    alloc: Global,
    bytes: &[u8],
    utf8: bool,
    encodings: &[Encoding],
    all: &mut Vec<Encoded>,
) -> Result<(), LdfFault>
    requires { utf8 ≡ is_utf8 bytes.now }
    ensures ok { OnOk result ((added : List AnyEncoded) × (all.new.items ≡ all.old.items ++ added) ×
        AllZip (IsCoded bytes.now) encodings.now (map (pair_of bytes.now) added)) }
    ensures wide { IfErr result
        (IsWideOrMemory (FirstFailsFor (IsCoded bytes.now) (IsWideEncoding bytes.now) encodings.now)) }
{
    for encoding in encodings {
        all.push(encode(alloc, bytes, utf8, encoding)?)?;
    }
    Ok(())
}

/// The encodings of a statement behind those so far.
fn add_encoded(
    alloc: Global,
    bytes: &[u8],
    utf8: bool,
    statement: &Statement,
    all: &mut Vec<Encoded>,
) -> Result<(), LdfFault>
    requires { utf8 ≡ is_utf8 bytes.now }
    ensures ok { OnOk result ((added : List AnyEncoded) × (all.new.items ≡ all.old.items ++ added) ×
        AllZip (IsCoded bytes.now) (encodings_in statement.now) (map (pair_of bytes.now) added)) }
    ensures wide { IfErr result
        (IsWideOrMemory (FirstFailsFor (IsCoded bytes.now) (IsWideEncoding bytes.now) (encodings_in statement.now))) }
{
    match statement {
        Statement::Encodings { encodings } => {
            add_encodings(alloc, bytes, utf8, encodings.items(), all)
        }
        Statement::Signals { .. }
        | Statement::Frames { .. }
        | Statement::Representations { .. }
        | Statement::PassedOver => Ok(()),
    }
}

/// All encodings in order, or the first scaling that is too wide.
pub(crate) fn encodings_of(
    alloc: Global,
    bytes: &[u8],
    utf8: bool,
    statements: &[Statement],
) -> Result<Vec<Encoded>, LdfFault>
    requires { utf8 ≡ is_utf8 bytes.now }
    ensures ok { IfOk result (λ all. AreCoded bytes.now statements.now (map (pair_of bytes.now) all.items)) }
    ensures wide { IfErr result (IsWideOrMemory (IsFirstWide bytes.now statements.now)) }
{
    let mut all = Vec::new(alloc);
    for statement in statements {
        add_encoded(alloc, bytes, utf8, statement, &mut all)?;
    }
    Ok(all)
}
