//! A whole statement.

ghost use Rattle.std.specs.Prelude.{◌≡◌};
ghost use Rattle.ldf_grammar.specs.Sizes.{section_of};
ghost use Rattle.ldf_grammar.specs.StatementForms.{section_by_kind, statement};
ghost use Rattle.ldf_grammar.specs.Gives.{Gives};
ghost use Rattle.ldf_grammar.specs.Kinds.{section_view};

use crate::parts::{Part, Stop, parts_until};
use crate::skipping::{after_line, after_section};
use crate::statement::Statement;
use sig_text::Token;
use std::alloc::Global;
use token_forms::{literal_at, token_text, word_at};

/// Which section a word begins.
#[derive(Clone, Copy, Debug, PartialEq, Eq)]
pub(crate) enum Section {
    Signals,
    Frames,
    Encodings,
    Representations,
    Other,
}

/// The section that the word begins.
fn section_of(word: &[u8]) -> Section
    ensures { section_view result ≡ section_of word.now }
{
    if word == b"Signals".as_slice() {
        Section::Signals
    } else if word == b"Frames".as_slice() {
        Section::Frames
    } else if word == b"Signal_encoding_types".as_slice() {
        Section::Encodings
    } else if word == b"Signal_representation".as_slice() {
        Section::Representations
    } else {
        Section::Other
    }
}

/// A section, behind its opening brace.
#[tactic(auto, unfolding(crate::specs::StatementForms::section_by_kind, crate::specs::StatementForms::signal_section, crate::specs::StatementForms::frame_section, crate::specs::StatementForms::encoding_section, crate::specs::StatementForms::representation_section, crate::specs::StatementForms::passed_section, crate::specs::StatementForms::other_section, crate::specs::Forms::followed_by, crate::specs::Forms::expect, crate::specs::Forms::say))]
fn section_at<'a>(
    alloc: Global,
    bytes: &[u8],
    section: Section,
    tokens: &'a [Token],
) -> Result<(Statement, &'a [Token]), Stop>
    ensures { Gives result (section_by_kind bytes.now (section_view section) tokens.now) }
{
    match section {
        Section::Signals => {
            let (lines, rest) = parts_until(alloc, bytes, b"}", tokens)?;
            Ok((Statement::Signals { lines }, rest))
        }
        Section::Frames => {
            let (frames, rest) = parts_until(alloc, bytes, b"}", tokens)?;
            Ok((Statement::Frames { frames }, rest))
        }
        Section::Encodings => {
            let (encodings, rest) = parts_until(alloc, bytes, b"}", tokens)?;
            Ok((Statement::Encodings { encodings }, rest))
        }
        Section::Representations => {
            let (lines, rest) = parts_until(alloc, bytes, b"}", tokens)?;
            Ok((Statement::Representations { lines }, rest))
        }
        Section::Other => {
            let rest = after_section(bytes, tokens).ok_or(Stop::Form)?;
            Ok((Statement::PassedOver, rest))
        }
    }
}

impl Part for Statement {
    ghost form = { statement };

    #[tactic(auto, unfolding(crate::specs::StatementForms::statement, crate::specs::StatementForms::statement_behind, crate::specs::StatementForms::opened_section, crate::specs::StatementForms::passed_line, crate::specs::StatementForms::header_line, crate::specs::Forms::either, crate::specs::Forms::followed_by, crate::specs::Forms::expect, crate::specs::Forms::say))]
    fn read<'a>(
        alloc: Global,
        bytes: &[u8],
        tokens: &'a [Token],
    ) -> Result<(Statement, &'a [Token]), Stop> {
        let (word, rest) = word_at(tokens).ok_or(Stop::Form)?;
        if let Some(rest) = literal_at(bytes, b"=", rest) {
            let rest = after_line(bytes, rest).ok_or(Stop::Form)?;
            return Ok((Statement::PassedOver, rest));
        }
        let rest = literal_at(bytes, b"{", rest).ok_or(Stop::Form)?;
        section_at(alloc, bytes, section_of(token_text(bytes, word)), rest)
    }
}
