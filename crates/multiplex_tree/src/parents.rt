//! The parent of each signal by the rules of multiplexing.

ghost use Rattle.std.specs.Prelude.{◌≡◌, ◌<◌, Ok, IfOk, IfErr, All, slice_get, length};
ghost use Rattle.multiplex_tree.specs.Parents.{is_selector, is_multiplexor, only, selectors, AreParents};
ghost use Rattle.multiplex_tree.specs.Claims.{claimed_parent, marked_parent, IsWhyOf};
ghost use Rattle.multiplex_tree.specs.Fault.{IsFault};
ghost use Rattle.multiplex_tree.specs.declared.parents.ParentFault.TheVariants as faults;

use crate::claim::{Claim, claims_of};
use crate::{Link, List, Mark, MuxFault, MuxWhy, Parent, Range};
use std::alloc::{AllocFailed, Global};
use std::mem;

/// Why a signal has no parent, or out of memory.
#[derive(Drop)]
pub(crate) enum ParentFault {
    Why(MuxWhy),
    Memory,
}

impl From<MuxWhy> for ParentFault {
    ghost from_gives = { λ why fault. fault ≡ faults.Why why };

    fn from(why: MuxWhy) -> ParentFault {
        ParentFault::Why(why)
    }
}

impl<T: Drop> From<AllocFailed<T>> for ParentFault {
    ghost from_gives = { λ _ fault. fault ≡ faults.Memory };

    fn from(_: AllocFailed<T>) -> ParentFault {
        ParentFault::Memory
    }
}

/// Whether a mark is that of a multiplexor without group.
fn is_top_selector(mark: &Mark) -> bool
    ensures { result ≡ is_selector mark.now }
{
    mark.multiplexor && mark.group.is_none()
}

/// The one multiplexor without group.
fn selector_of(marks: &[Mark]) -> Result<usize, MuxWhy>
    ensures { result ≡ only (selectors marks.now) }
{
    let mut found = None;
    for (signal, mark) in marks.iter().enumerate() {
        if is_top_selector(mark) {
            if found.is_some() {
                return Err(MuxWhy::Ambiguous);
            }
            found = Some(signal);
        }
    }
    found.ok_or(MuxWhy::NoParent)
}

/// Whether the signal is there and is a multiplexor.
fn is_parent(marks: &[Mark], signal: usize) -> bool
    ensures { result ≡ is_multiplexor (slice_get marks.now signal) }
{
    marks.get(signal).is_some_and(|mark| mark.multiplexor)
}

/// The parent of a signal in `group` whose links claim this.
fn claim_parent(
    alloc: Global,
    marks: &[Mark],
    selector: Result<usize, MuxWhy>,
    group: u64,
    claim: Claim,
) -> Result<Parent, ParentFault>
    requires { selector ≡ only (selectors marks.now) }
    ensures parent { IfOk result (λ parent. claimed_parent marks.now group claim ≡ Ok parent) }
    ensures why { IfErr result (IsWhyOf (claimed_parent marks.now group claim)) }
{
    match claim {
        Claim::Unlinked => {
            let signal = selector?;
            let range = Range {
                low: group,
                high: group,
            };
            Ok(Parent {
                signal,
                ranges: List::of(vec![in alloc; range]?),
            })
        }
        Claim::Linked {
            parent: Some(signal),
            ranges,
        } => {
            if is_parent(marks, signal) {
                Ok(Parent { signal, ranges })
            } else {
                Err(ParentFault::Why(MuxWhy::NoParent))
            }
        }
        Claim::Linked { parent: None, .. } => Err(ParentFault::Why(MuxWhy::NoParent)),
        Claim::Divided => Err(ParentFault::Why(MuxWhy::Ambiguous)),
    }
}

/// The parent of a signal with this mark whose links claim this, or none where it has no group.
fn parent_of(
    alloc: Global,
    marks: &[Mark],
    selector: Result<usize, MuxWhy>,
    mark: &Mark,
    claim: Claim,
) -> Result<Option<Parent>, ParentFault>
    requires { selector ≡ only (selectors marks.now) }
    ensures parent { IfOk result (λ parent. marked_parent marks.now claim mark.now.group ≡ Ok parent) }
    ensures why { IfErr result (IsWhyOf (marked_parent marks.now claim mark.now.group)) }
{
    match mark.group {
        None => Ok(None),
        Some(group) => Ok(Some(claim_parent(alloc, marks, selector, group, claim)?)),
    }
}

/// The parent of each signal, or the first signal whose parent is missing or ambiguous.
pub(crate) fn parents_of(
    alloc: Global,
    marks: &[Mark],
    links: &[Link],
) -> Result<Vec<Option<Parent>>, MuxFault>
    requires { All (λ l. l.child < length marks.now) links.now }
    ensures parents { IfOk result (λ parents. AreParents marks.now links.now parents.items) }
    ensures fault { IfErr result (IsFault marks.now links.now) }
{
    let Ok(mut claims) = claims_of(alloc, marks.len(), links) else {
        return Err(MuxFault::Memory);
    };
    let selector = selector_of(marks);
    let mut parents = Vec::new(alloc);
    for (signal, mark) in marks.iter().enumerate() {
        let claim = mem::replace(&mut claims[signal], Claim::Unlinked);
        match parent_of(alloc, marks, selector, mark, claim) {
            Ok(parent) => {
                let Ok(()) = parents.push(parent) else {
                    return Err(MuxFault::Memory);
                };
            }
            Err(ParentFault::Why(why)) => return Err(MuxFault::At { signal, why }),
            Err(ParentFault::Memory) => return Err(MuxFault::Memory),
        }
    }
    Ok(parents)
}
