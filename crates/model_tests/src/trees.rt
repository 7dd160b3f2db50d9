//! Trees, faults and active signals, worked out by hand.

ghost use Rattle.std.specs.Prelude.{◌<◌, IfOk, All};

use multiplex_tree::{Link, List, Mark, MuxFault, Range, Tree, resolve};
use std::alloc::{AllocError, Global};
use std::process::Abort;
use std::test::Fail;

mod cases;

use cases::CASES;

/// A link's child, its parent and its ranges.
type Row = (usize, Option<usize>, &'static [Range]);

/// Marks and links, raw values, and the answer: the parents and the signals that are active, or the fault.
struct Case {
    marks: &'static [Mark],
    links: &'static [Row],
    raws: &'static [Option<i128>],
    answer: &'static str,
}

/// The links of these rows whose children are among `count` signals.
fn links_of(alloc: Global, count: usize, rows: &[Row]) -> Result<Vec<Link>, AllocError>
    ensures { IfOk result (λ links. All (λ l. l.child < count) links.items) }
{
    let mut links = Vec::new(alloc);
    for (child, parent, ranges) in rows {
        if *child >= count {
            continue;
        }
        links.push(Link {
            child: *child,
            parent: *parent,
            ranges: List::of(Vec::from_slice(alloc, ranges)?),
        })?;
    }
    Ok(links)
}

/// A tree's parents in words.
fn tree_text(alloc: Global, tree: &Tree) -> Result<String, AllocError> {
    let mut text = String::new(alloc);
    for parent in tree.parents.items() {
        match parent {
            Some(parent) => {
                text.push_str(format!(in alloc; "{}:", parent.signal)?.as_str())?;
                for range in parent.ranges.items() {
                    text.push_str(format!(in alloc; " {}-{}", range.low, range.high)?.as_str())?;
                }
            }
            None => text.push_str("-")?,
        }
        text.push_str("; ")?;
    }
    Ok(text)
}

/// What `resolve` and then `active` answer, in words; or `bad row`, where a link's child is no signal, or where a
/// tree has not as many raw values as signals.
fn answer(
    alloc: Global,
    marks: &[Mark],
    rows: &[Row],
    raws: &[Option<i128>],
) -> Result<String, Fail> {
    let links = links_of(alloc, marks.len(), rows)?;
    if links.len() != rows.len() {
        return Ok(format!(in alloc; "bad row")?);
    }
    let tree = match resolve(alloc, marks, links.as_slice()) {
        Ok(tree) => tree,
        Err(MuxFault::At { signal, why }) => return Ok(format!(in alloc; "{why:?} {signal}")?),
        Err(MuxFault::Memory) => return Ok(format!(in alloc; "memory")?),
    };
    let mut text = tree_text(alloc, &tree)?;
    text.push_str("active")?;
    if raws.len() != tree.parents.items().len() {
        return Ok(format!(in alloc; "bad row")?);
    }
    for signal in 0..raws.len() {
        if tree.active(raws, signal) {
            text.push_str(format!(in alloc; " {signal}")?.as_str())?;
        }
    }
    Ok(text)
}

/// Holds each case against its answer.
fn check_cases(rt: &impl Abort, alloc: Global, cases: &[Case]) -> Result<(), Fail> {
    for case in cases {
        let text = answer(alloc, case.marks, case.links, case.raws)?;
        assert_eq!(rt; text.as_str(), case.answer);
    }
    Ok(())
}

#[test]
fn a_tree_of_no_signals_has_no_parents(rt: HostRuntime) -> Result<(), Fail> {
    let tree = resolve(rt.alloc(), &[], &[])?;
    assert_eq!(rt; tree.parents.items().len(), 0);
    Ok(())
}

#[test]
fn trees_faults_and_active_signals(rt: HostRuntime) -> Result<(), Fail> {
    check_cases(&rt, rt.alloc(), &CASES)
}
