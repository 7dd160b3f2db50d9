//! The tree of parents of a message's signals, and which signals are active in it.

ghost use Rattle.std.specs.Prelude.{◌≡◌, ℕ, ◌<◌, ◌↔◌, List, Option, IsTrue, ◌⊎◌, IfOk, IfErr, IsOkAnd, IsErrOf, All, length, slice_get};
ghost use Rattle.std.specs.List.{list_any};
ghost use Rattle.std.specs.Option.{option_copied, option_flatten};
ghost use Rattle.multiplex_tree.specs.declared.fault.MuxWhy.{MuxWhy};
ghost use Rattle.multiplex_tree.specs.declared.fault.MuxFault.TheVariants.{At};
ghost use Rattle.multiplex_tree.specs.declared.mark.Parent.{Parent};
ghost use Rattle.multiplex_tree.specs.Chain.{signals_above, IsShallow};
ghost use Rattle.multiplex_tree.specs.Fault.{IsTree, IsFault};
ghost use Rattle.multiplex_tree.specs.Trees.{IsTreeOver};
ghost use Rattle.multiplex_tree.specs.Activity.{is_in_range, parent_at, selects, is_active, IsActive};

use crate::chain::{MOST_PARENTS, check_chains};
use crate::parents::parents_of;
use crate::{Link, List, Mark, MuxFault, Parent, Range};
use std::alloc::{AllocError, Global};

/// The parent of each signal of a message, by the signals' places.
#[derive(Debug, Drop)]
pub struct Tree {
    pub parents: List<Option<Parent>>,
}

/// The signals that are the parents.
fn parent_signals(
    alloc: Global,
    parents: &[Option<Parent>],
) -> Result<Vec<Option<usize>>, AllocError>
    ensures { IfOk result (λ above. above.items ≡ signals_above parents.now) }
{
    parents
        .iter()
        .map(|parent| Some(parent.as_ref()?.signal))
        .collect(alloc)
}

/// The tree of marks and links, or their fault.
fn tree_of(alloc: Global, marks: &[Mark], links: &[Link]) -> Result<Tree, MuxFault>
    requires { All (λ l. l.child < length marks.now) links.now }
    ensures tree { IfOk result (λ tree. IsTree marks.now links.now tree.parents) }
    ensures fault { IfErr result (IsFault marks.now links.now) }
{
    let parents = parents_of(alloc, marks, links)?;
    let above = parent_signals(alloc, parents.as_slice()).map_err(|_| MuxFault::Memory)?;
    check_chains(alloc, above.as_slice())?;
    Ok(Tree {
        parents: List::of(parents),
    })
}

/// The tree of parents that marks and links make, where each signal has one parent or none and at most 8
/// parents are above it. A signal without group has no parent. Links to the others name their parent, which
/// has to be one multiplexor; without links it is the one multiplexor without group, with that group's value.
///
/// The fault is the first signal whose parent is missing or not one (`NoParent`, `Ambiguous`), else the first whose
/// chain of parents never ends (`Cycle`), else the first with more than 8 parents above it (`Deep`); or out of memory.
/// `marks` has a mark for each signal, and each link's child is one of them.
pub fn resolve(alloc: Global, marks: &[Mark], links: &[Link]) -> Result<Tree, MuxFault>
    requires { All (λ l. l.child < length marks.now) links.now }

    // What is answered is true of the marks and links.
    ensures tree { IfOk result (λ tree. IsTree marks.now links.now tree.parents) }
    ensures fault { IfErr result (IsFault marks.now links.now) }

    // Whatever the marks and links are, each parent is one of the signals, and no more are above one than may.
    ensures over { IfOk result (λ tree. IsTreeOver (length marks.now) tree.parents) }

    // What is true of them is answered, unless memory runs out.
    ensures every_tree { (parents : List (Option Parent)) → IsTree marks.now links.now parents →
        IsOkAnd result (λ tree. tree.parents ≡ parents) ⊎ IsErrOf result MuxFault.Memory }
    ensures every_fault { (signal : ℕ) (why : MuxWhy) → IsFault marks.now links.now (At signal why) →
        IsErrOf result (At signal why) ⊎ IsErrOf result MuxFault.Memory }
{
    tree_of(alloc, marks, links)
}

/// Whether a raw value lies in a range.
fn lies_in(raw: i128, range: &Range) -> bool
    ensures { result ≡ is_in_range raw range.now }
{
    i128::from(range.low) <= raw && raw <= i128::from(range.high)
}

/// Whether a raw value lies in one of the ranges.
fn is_in_any(raw: i128, ranges: &[Range]) -> bool
    ensures { result ≡ list_any (is_in_range raw) ranges.now }
{
    ranges.iter().any(|range| lies_in(raw, range))
}

/// The raw value of a signal, where it is there.
fn raw_at(raws: &[Option<i128>], signal: usize) -> Option<i128>
    ensures { result ≡ option_flatten (slice_get raws.now signal) }
{
    *raws.get(signal)?
}

/// Whether the parent's raw value selects the signals below it.
fn is_selecting(parent: &Parent, raws: &[Option<i128>]) -> bool
    ensures { result ≡ selects raws.now parent.now }
{
    raw_at(raws, parent.signal).is_some_and(|raw| is_in_any(raw, parent.ranges.items()))
}

/// The parent of a signal, where it has one.
fn parent_above(parents: &[Option<Parent>], signal: usize) -> Option<&Parent>
    ensures { option_copied result ≡ parent_at parents.now signal }
{
    parents.get(signal)?.as_ref()
}

/// Whether each parent on the way up from a signal, at most as many as there may be, selects the signal below it.
fn is_selected(parents: &[Option<Parent>], raws: &[Option<i128>], signal: usize) -> bool
    requires { IsShallow (signals_above parents.now) }
    ensures { result ≡ is_active parents.now raws.now signal }
{
    let mut place = signal;
    for _ in 0..MOST_PARENTS {
        let Some(parent) = parent_above(parents, place) else {
            return true;
        };
        if !is_selecting(parent, raws) {
            return false;
        }
        place = parent.signal;
    }
    // After so many parents there is none.
    true
}

impl Tree {
    /// Whether a signal is active under these raw values: it has no parent, or its parent is active and the
    /// parent's raw value is there and lies in one of the ranges, both ends included. `raws` has the raw value of
    /// each signal that is there. A tree from `resolve` has at most 8 parents above a signal. Takes no memory.
    pub fn active(&self, raws: &[Option<i128>], signal: usize) -> bool
        requires shallow { IsShallow (signals_above self.now.parents) }
        requires raws { length raws.now ≡ length self.now.parents }
        requires signal { signal < length raws.now }
        ensures relation { IsTrue result ↔ IsActive self.now.parents raws.now signal }
        ensures test { result ≡ is_active self.now.parents raws.now signal }
    {
        is_selected(self.parents.items(), raws, signal)
    }
}
