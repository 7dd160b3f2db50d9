//! Chains of parents: how many signals are above each, and whether their chain ends.

ghost use Rattle.std.specs.Prelude.{◌≡◌, ◌+◌, ℕ, map, IfOk, IfErr, OnOk, MatchOption, IsNone, length};
ghost use Rattle.multiplex_tree.specs.Chain.{most_parents, parent_in, next_up, ancestor, IsShallow};
ghost use Rattle.multiplex_tree.specs.FarAbove.{IsFirstSome, AreFarAbove};
ghost use Rattle.multiplex_tree.specs.Fault.{IsChainFault};

use crate::{MuxFault, MuxWhy};
use std::alloc::{AllocError, Global};

/// How many parents may be above a signal: a limit of this project.
pub const MOST_PARENTS: usize = 8;

/// The signal above one that may not be there.
fn above(parents: &[Option<usize>], signal: Option<usize>) -> Option<usize>
    ensures { result ≡ next_up parents.now signal }
{
    *parents.get(signal?)?
}

/// The signal `count` parents above.
fn nth_above(parents: &[Option<usize>], count: usize, signal: usize) -> Option<usize>
    ensures { result ≡ ancestor parents.now count signal }
{
    let mut place = Some(signal);
    for _ in 0..count {
        place = above(parents, place);
    }
    place
}

/// The first signal with too many parents above it.
fn first_deep(parents: &[Option<usize>]) -> Option<usize>
    ensures { MatchOption result (IsShallow parents.now) (IsFirstSome (length parents.now) (ancestor parents.now (most_parents + 1))) }
{
    for signal in 0..parents.len() {
        if nth_above(parents, MOST_PARENTS + 1, signal).is_some() {
            return Some(signal);
        }
    }
    None
}

/// The first signal that has one far above it.
fn first_with(far: &[Option<usize>]) -> Option<usize>
    ensures { MatchOption result ((i : ℕ) → IsNone (parent_in far.now i)) (IsFirstSome (length far.now) (parent_in far.now)) }
{
    for signal in 0..far.len() {
        if above(far, Some(signal)).is_some() {
            return Some(signal);
        }
    }
    None
}

/// For each signal the one twice as far above it as `far` has it.
fn twice_as_far(alloc: Global, far: &[Option<usize>]) -> Result<Vec<Option<usize>>, AllocError>
    ensures { IfOk result (λ twice. twice.items ≡ map (next_up far.now) far.now) }
{
    far.iter().map(|signal| above(far, *signal)).collect(alloc)
}

/// For each signal the one above it by more steps than there are signals: only a chain that never ends has it.
/// The steps double each time, so that this takes `n log n` steps.
fn far_above(alloc: Global, parents: &[Option<usize>]) -> Result<Vec<Option<usize>>, AllocError>
    ensures { IfOk result (λ far. AreFarAbove parents.now far.items) }
{
    let mut far = Vec::from_slice(alloc, parents)?;
    let mut steps: usize = 1;
    while steps <= parents.len() / 2 {
        far = twice_as_far(alloc, far.as_slice())?;
        steps *= 2;
    }
    let farthest = twice_as_far(alloc, far.as_slice())?;
    Ok(farthest)
}

/// Whether each chain of parents ends within the limit, or the first one that never ends, or else the first that
/// is longer.
pub(crate) fn check_chains(alloc: Global, parents: &[Option<usize>]) -> Result<(), MuxFault>
    ensures ok { OnOk result (IsShallow parents.now) }
    ensures fault { IfErr result (IsChainFault parents.now) }
{
    let Some(deep) = first_deep(parents) else {
        return Ok(());
    };
    let Ok(far) = far_above(alloc, parents) else {
        return Err(MuxFault::Memory);
    };
    match first_with(far.as_slice()) {
        Some(signal) => Err(MuxFault::At {
            signal,
            why: MuxWhy::Cycle,
        }),
        None => Err(MuxFault::At {
            signal: deep,
            why: MuxWhy::Deep,
        }),
    }
}
