//! The longest run of whole statements.

ghost use Rattle.std.specs.Prelude.{◌≡◌, IfOk, IfErr, OnOk};
ghost use Rattle.token_forms.specs.Views.{found_view};
ghost use Rattle.dbc_grammar.specs.Forms.{note_at, statement_at};
ghost use Rattle.dbc_grammar.specs.Kept.{IsKeptWith, IsKeptBefore, IsKeptOf, StopsAt};

use crate::DbcFault;
use crate::keys::INDEPENDENT;
use crate::laws::statements_are_the_longest_run;
use crate::message::message_at;
use crate::multiplexing::multiplexing_at;
use crate::statement::{MessageForm, Note, Statement};
use crate::unkept::unkept_at;
use crate::values::{signal_texts_at, value_type_at};
use sig_text::Token;
use std::alloc::{AllocError, Global};

/// A note on a signal.
#[tactic(auto, unfolding(crate::specs::Forms::note_at))]
fn note_at<'a>(
    alloc: Global,
    bytes: &[u8],
    tokens: &'a [Token],
) -> Result<Option<(Note, &'a [Token])>, AllocError>
    ensures { IfOk result (λ found. found_view found ≡ note_at bytes.now tokens.now) }
{
    if let Some(found) = signal_texts_at(alloc, bytes, tokens)? {
        return Ok(Some(found));
    }
    if let Some(found) = value_type_at(bytes, tokens) {
        return Ok(Some(found));
    }
    multiplexing_at(alloc, bytes, tokens)
}

/// The statement at the front.
#[tactic(auto, unfolding(crate::specs::Forms::statement_at))]
fn statement_at<'a>(
    alloc: Global,
    bytes: &[u8],
    tokens: &'a [Token],
) -> Result<Option<(Statement, &'a [Token])>, AllocError>
    ensures { IfOk result (λ found. found_view found ≡ statement_at bytes.now tokens.now) }
{
    if let Some((message, rest)) = message_at(alloc, bytes, tokens)? {
        return Ok(Some((Statement::Message(message), rest)));
    }
    if let Some((note, rest)) = note_at(alloc, bytes, tokens)? {
        return Ok(Some((Statement::Noted(note), rest)));
    }
    match unkept_at(bytes, tokens) {
        Some(rest) => Ok(Some((Statement::Unkept, rest))),
        None => Ok(None),
    }
}

/// What is kept of statements: the messages in file order, but for the independent one, and the notes.
#[derive(Debug, Drop)]
pub struct Kept {
    pub messages: Vec<MessageForm>,
    pub notes: Vec<Note>,
}

impl Kept {
    /// Keeps one more statement.
    fn add(&mut self, statement: Statement) -> Result<(), AllocError>
        ensures { OnOk result (IsKeptWith statement self.old self.new) }
    {
        match statement {
            Statement::Message(message) => {
                if message.heading.id != INDEPENDENT {
                    self.messages.push(message)?;
                }
            }
            Statement::Noted(note) => self.notes.push(note)?,
            Statement::Unkept => {}
        }
        Ok(())
    }
}

/// What is kept of the longest run of whole statements, and the tokens after it.
fn kept_of<'a>(
    alloc: Global,
    bytes: &[u8],
    tokens: &'a [Token],
) -> Result<(Kept, &'a [Token]), AllocError>
    ensures { IfOk result (λ found. IsKeptBefore bytes.now tokens.now found.0 found.1.now) }
{
    statements_are_the_longest_run();
    let mut kept = Kept {
        messages: Vec::new(alloc),
        notes: Vec::new(alloc),
    };
    let mut rest = tokens;
    for turn in 0..tokens.len() {
        match statement_at(alloc, bytes, rest)? {
            Some((statement, after)) => {
                kept.add(statement)?;
                rest = after;
            }
            None => return Ok((kept, rest)),
        }
    }
    Ok((kept, rest))
}

/// What is kept of all statements, where the tokens are a list of whole statements; else the place of the first token
/// after the longest run of them.
pub fn read_statements(alloc: Global, bytes: &[u8], tokens: &[Token]) -> Result<Kept, DbcFault>
    ensures ok { IfOk result (λ kept. IsKeptOf bytes.now tokens.now kept) }
    ensures fault { IfErr result (StopsAt bytes.now tokens.now) }
{
    let (kept, rest) = kept_of(alloc, bytes, tokens)?;
    match rest {
        [] => Ok(kept),
        [token, ..] => Err(DbcFault::Statement { at: token.at }),
    }
}
