//! Extended multiplexing.

ghost use Rattle.std.specs.Prelude.{◌≡◌, IfOk};
ghost use Rattle.token_forms.specs.Runs.{run_of, put_first};
ghost use Rattle.token_forms.specs.Views.{rest_view, found_view};
ghost use Rattle.dbc_grammar.specs.Forms.{range_at, more_range_at, ranges_at, multiplexing_at};

use crate::statement::{Note, Says};
use crate::values::named_at;
use multiplex_tree::{List, Range};
use sig_text::Token;
use std::alloc::{AllocError, Global};
use token_forms::{literal_at, whole_at, word_at};

#[tactic(auto, unfolding(crate::specs::Forms::range_at))]
fn range_at<'a>(bytes: &[u8], tokens: &'a [Token]) -> Option<(Range, &'a [Token])>
    ensures { found_view result ≡ range_at bytes.now tokens.now }
{
    let (low, rest) = whole_at(bytes, u64::MAX, tokens)?;
    let rest = literal_at(bytes, b"-", rest)?;
    let (high, rest) = whole_at(bytes, u64::MAX, rest)?;
    Some((Range { low, high }, rest))
}

#[tactic(auto, unfolding(crate::specs::Forms::more_range_at))]
fn more_range_at<'a>(bytes: &[u8], tokens: &'a [Token]) -> Option<(Range, &'a [Token])>
    ensures { found_view result ≡ more_range_at bytes.now tokens.now }
{
    let rest = literal_at(bytes, b",", tokens)?;
    range_at(bytes, rest)
}

/// The ranges after the first one.
fn more_ranges_at<'a>(
    alloc: Global,
    bytes: &[u8],
    first: Range,
    tokens: &'a [Token],
) -> Result<(List<Range>, &'a [Token]), AllocError>
    ensures { IfOk result (λ run. (run.0, run.1.now) ≡ put_first first (run_of (more_range_at bytes.now) tokens.now)) }
{
    let mut ranges = Vec::new(alloc);
    ranges.push(first)?;
    let mut rest = tokens;
    for turn in 0..tokens.len() {
        match more_range_at(bytes, rest) {
            Some((range, after)) => {
                ranges.push(range)?;
                rest = after;
            }
            None => return Ok((List::of(ranges), rest)),
        }
    }
    Ok((List::of(ranges), rest))
}

/// One range or more.
#[tactic(auto, unfolding(crate::specs::Forms::ranges_at))]
fn ranges_at<'a>(
    alloc: Global,
    bytes: &[u8],
    tokens: &'a [Token],
) -> Result<Option<(List<Range>, &'a [Token])>, AllocError>
    ensures { IfOk result (λ found. found_view found ≡ ranges_at bytes.now tokens.now) }
{
    match range_at(bytes, tokens) {
        Some((first, rest)) => Ok(Some(more_ranges_at(alloc, bytes, first, rest)?)),
        None => Ok(None),
    }
}

/// The ranges of a multiplexor's values for which a signal is there.
#[tactic(auto, unfolding(crate::specs::Forms::multiplexing_at))]
pub fn multiplexing_at<'a>(
    alloc: Global,
    bytes: &[u8],
    tokens: &'a [Token],
) -> Result<Option<(Note, &'a [Token])>, AllocError>
    ensures { IfOk result (λ found. found_view found ≡ multiplexing_at bytes.now tokens.now) }
{
    let Some((id, signal, rest)) = named_at(bytes, b"SG_MUL_VAL_", tokens) else {
        return Ok(None);
    };
    let Some((multiplexor, rest)) = word_at(rest) else {
        return Ok(None);
    };
    let Some((ranges, rest)) = ranges_at(alloc, bytes, rest)? else {
        return Ok(None);
    };
    match literal_at(bytes, b";", rest) {
        Some(rest) => {
            let says = Says::Below(multiplexor, ranges);
            Ok(Some((Note { id, signal, says }, rest)))
        }
        None => Ok(None),
    }
}
