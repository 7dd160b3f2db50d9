//! The statements of a text.

ghost use Rattle.std.specs.Prelude.{◌≡◌, ◌<◌, [], length, IfOk, IfErr, IfSome};
ghost use Rattle.token_forms.specs.Views.{found_view, rest_view};
ghost use Rattle.token_forms.specs.Runs.{IsLongestRun};
ghost use Rattle.ldf_grammar.specs.StatementForms.{after_first, whole_statement};
ghost use Rattle.ldf_grammar.specs.Run.{AllRows, place_of};
ghost use Rattle.ldf_grammar.specs.Answer.{IsBreakOrMemory};

use crate::LdfFault;
use crate::laws::forms_are_statements;
use crate::parts::{Part, Stop};
use crate::statement::Statement;
use sig_text::Token;
use std::alloc::{AllocError, Global};
use token_forms::literal_at;

/// The tokens after the first statement.
#[tactic(auto, unfolding(crate::specs::StatementForms::after_first))]
fn after_first<'a>(bytes: &[u8], tokens: &'a [Token]) -> Option<&'a [Token]>
    ensures { rest_view result ≡ after_first bytes.now tokens.now }
{
    let rest = literal_at(bytes, b"LIN_description_file", tokens)?;
    literal_at(bytes, b";", rest)
}

/// The statement at the front of the tokens, and the tokens after it.
#[tactic(auto, unfolding(crate::specs::Forms::taking))]
fn next_statement<'a>(
    alloc: Global,
    bytes: &[u8],
    tokens: &'a [Token],
) -> Result<Option<(Statement, &'a [Token])>, AllocError>
    ensures found { IfOk result (λ found. found_view found ≡ whole_statement bytes.now tokens.now) }
    ensures shorter { IfOk result (λ found. IfSome found (λ got. length got.1.now < length tokens.now)) }
{
    match Statement::read(alloc, bytes, tokens) {
        Ok((statement, after)) => {
            if after.len() < tokens.len() {
                Ok(Some((statement, after)))
            } else {
                Ok(None)
            }
        }
        Err(Stop::Form) => Ok(None),
        Err(Stop::Memory) => Err(AllocError),
    }
}

/// The longest run of statements that begins the tokens, and the tokens after it.
fn statements_at<'a>(
    alloc: Global,
    bytes: &[u8],
    tokens: &'a [Token],
) -> Result<(Vec<Statement>, &'a [Token]), AllocError>
    ensures { IfOk result (λ found. IsLongestRun (whole_statement bytes.now) tokens.now found.0.items found.1.now) }
{
    let mut statements = Vec::new(alloc);
    let mut rest = tokens;
    loop {
        let Some((statement, after)) = next_statement(alloc, bytes, rest)? else {
            return Ok((statements, rest));
        };
        statements.push(statement)?;
        rest = after;
    }
}

/// The place of the first token, or the text's end where there is none.
fn place_of(bytes: &[u8], tokens: &[Token]) -> usize
    ensures { result ≡ place_of bytes.now tokens.now }
{
    match tokens {
        [token, ..] => token.at,
        [] => bytes.len(),
    }
}

/// The statements after the first one, or the first token that no whole statement covers.
pub(crate) fn statements_of(
    alloc: Global,
    bytes: &[u8],
    tokens: &[Token],
) -> Result<Vec<Statement>, LdfFault>
    ensures ok { IfOk result (λ statements. AllRows bytes.now statements.items tokens.now []) }
    ensures broken { IfErr result (IsBreakOrMemory bytes.now tokens.now) }
{
    forms_are_statements();
    let Some(rest) = after_first(bytes, tokens) else {
        return Err(LdfFault::Statement {
            at: place_of(bytes, tokens),
        });
    };
    let (statements, rest) = statements_at(alloc, bytes, rest)?;
    match rest {
        [] => Ok(statements),
        [token, ..] => Err(LdfFault::Statement { at: token.at }),
    }
}
