//! What the names of signals and encodings stand for.

ghost use Rattle.std.specs.Prelude.{◌≡◌, IfOk, OnOk, map};
ghost use Rattle.std.specs.List.{flat_map};
ghost use Rattle.ldf_grammar.specs.Gather.{Definitions, first_of, named_line, signals_in};
ghost use Rattle.ldf_grammar.specs.Gather.{stated_by, stated_in, defined_signals, stated_encodings};
ghost use Rattle.ldf_grammar.specs.Lookup.{Adds, HasFirsts, HasLent, pair_of};

use crate::encodings::Encoded;
use crate::names::{Firsts, add_value, value_of};
use crate::statement::{Representation, SignalLine, Statement};
use bench_model::Entry;
use sig_text::Token;
use std::alloc::{AllocError, Global};
use std::collections::BTreeMap;
use token_forms::token_text;

/// The first definition of each signal and of each encoding, and the encoding that is first stated for each signal.
#[derive(Drop)]
pub(crate) struct Lookups<'a, 'b> {
    signals: Firsts<'a, SignalLine>,
    encodings: Firsts<'a, &'b [Entry]>,
    represented: Firsts<'a, Token>,
}

/// Adds the lines of a section `Signals`.
fn add_signals<'a>(
    bytes: &'a [u8],
    lines: &[SignalLine],
    firsts: &mut Firsts<'a, SignalLine>,
) -> Result<(), AllocError>
    ensures { OnOk result (Adds firsts.old firsts.new (map (named_line bytes.now) lines.now)) }
{
    for line in lines {
        add_value(firsts, token_text(bytes, line.name), *line)?;
    }
    Ok(())
}

/// Adds the signals of a representation.
fn add_represented<'a>(
    bytes: &'a [u8],
    line: &Representation,
    firsts: &mut Firsts<'a, Token>,
) -> Result<(), AllocError>
    ensures { OnOk result (Adds firsts.old firsts.new (stated_by bytes.now line.now)) }
{
    add_value(firsts, token_text(bytes, line.first), line.encoding)?;
    for signal in line.others.items() {
        add_value(firsts, token_text(bytes, *signal), line.encoding)?;
    }
    Ok(())
}

/// Adds the signals that a statement defines.
#[tactic(auto, using(crate::proofs::LookupLaws::adds_nothing))]
fn add_defined<'a>(
    bytes: &'a [u8],
    statement: &Statement,
    firsts: &mut Firsts<'a, SignalLine>,
) -> Result<(), AllocError>
    ensures { OnOk result (Adds firsts.old firsts.new (signals_in bytes.now statement.now)) }
{
    match statement {
        Statement::Signals { lines } => add_signals(bytes, lines.items(), firsts),
        Statement::Frames { .. }
        | Statement::Encodings { .. }
        | Statement::Representations { .. }
        | Statement::PassedOver => Ok(()),
    }
}

/// The first line of each signal.
fn signal_lines<'a>(
    alloc: Global,
    bytes: &'a [u8],
    statements: &[Statement],
) -> Result<Firsts<'a, SignalLine>, AllocError>
    ensures { IfOk result (λ firsts. HasFirsts firsts (defined_signals bytes.now statements.now)) }
{
    let mut firsts = BTreeMap::new(alloc);
    for statement in statements {
        add_defined(bytes, statement, &mut firsts)?;
    }
    Ok(firsts)
}

/// Adds the lines of a section `Signal_representation`.
fn add_representations<'a>(
    bytes: &'a [u8],
    lines: &[Representation],
    firsts: &mut Firsts<'a, Token>,
) -> Result<(), AllocError>
    ensures { OnOk result (Adds firsts.old firsts.new (flat_map (stated_by bytes.now) lines.now)) }
{
    for line in lines {
        add_represented(bytes, line, firsts)?;
    }
    Ok(())
}

/// Adds the encodings that a statement states for signals.
#[tactic(auto, using(crate::proofs::LookupLaws::adds_nothing))]
fn add_stated<'a>(
    bytes: &'a [u8],
    statement: &Statement,
    firsts: &mut Firsts<'a, Token>,
) -> Result<(), AllocError>
    ensures { OnOk result (Adds firsts.old firsts.new (stated_in bytes.now statement.now)) }
{
    match statement {
        Statement::Representations { lines } => add_representations(bytes, lines.items(), firsts),
        Statement::Signals { .. }
        | Statement::Frames { .. }
        | Statement::Encodings { .. }
        | Statement::PassedOver => Ok(()),
    }
}

/// The encoding that is first stated for each signal.
fn representations<'a>(
    alloc: Global,
    bytes: &'a [u8],
    statements: &[Statement],
) -> Result<Firsts<'a, Token>, AllocError>
    ensures { IfOk result (λ firsts. HasFirsts firsts (stated_encodings bytes.now statements.now)) }
{
    let mut firsts = BTreeMap::new(alloc);
    for statement in statements {
        add_stated(bytes, statement, &mut firsts)?;
    }
    Ok(firsts)
}

/// The entries of the first encoding of each name.
fn encoding_entries<'a, 'b>(
    alloc: Global,
    bytes: &'a [u8],
    encodings: &'b [Encoded],
) -> Result<Firsts<'a, &'b [Entry]>, AllocError>
    ensures { IfOk result (λ firsts. HasLent firsts (map (pair_of bytes.now) encodings.now)) }
{
    let mut firsts = BTreeMap::new(alloc);
    for encoding in encodings {
        add_value(
            &mut firsts,
            token_text(bytes, encoding.name),
            encoding.entries.items(),
        )?;
    }
    Ok(firsts)
}

impl<'a, 'b> Lookups<'a, 'b> {
    ghost use Rattle.std.specs.Prelude.{◌≡◌, map, IfOk};
    ghost use Rattle.std.specs.Option.{option_map};
    ghost use Rattle.ldf_grammar.specs.Gather.{Definitions, first_of, entries_for, definitions_of};
    ghost use Rattle.ldf_grammar.specs.Lookup.{HasDefinitions, pair_of};

    pub(crate) fn of(
        alloc: Global,
        bytes: &'a [u8],
        statements: &[Statement],
        encodings: &'b [Encoded],
    ) -> Result<Lookups<'a, 'b>, AllocError>
        ensures { IfOk result (λ lookups. HasDefinitions lookups
            (definitions_of bytes.now statements.now (map (pair_of bytes.now) encodings.now))) }
    {
        Ok(Lookups {
            signals: signal_lines(alloc, bytes, statements)?,
            encodings: encoding_entries(alloc, bytes, encodings)?,
            represented: representations(alloc, bytes, statements)?,
        })
    }

    /// The first line of the signal.
    pub(crate) fn signal(&self, name: &'a [u8]) -> Option<SignalLine>
        ensures { (d : Definitions) → HasDefinitions self.now d → result ≡ first_of name.now d.signals }
    {
        value_of(&self.signals, name)
    }

    /// The entries of the encoding.
    pub(crate) fn encoding(&self, name: &'a [u8]) -> Option<&'b [Entry]>
        ensures { (d : Definitions) → HasDefinitions self.now d →
            option_map (λ entries. entries.now) result ≡ first_of name.now d.coded }
    {
        value_of(&self.encodings, name)
    }

    /// The entries of the encoding that is first stated for the signal.
    pub(crate) fn entries(&self, bytes: &'a [u8], name: &'a [u8]) -> Option<&'b [Entry]>
        ensures { (d : Definitions) → HasDefinitions self.now d →
            option_map (λ entries. entries.now) result ≡ entries_for bytes.now d name.now }
    {
        let encoding = value_of(&self.represented, name)?;
        self.encoding(token_text(bytes, encoding))
    }
}
