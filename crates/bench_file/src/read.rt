//! Reading a bench file.

ghost use Rattle.std.specs.Prelude.{◌≤◌, length, IfOk, IfErr};
ghost use Rattle.bench_file.specs.PlanOf.{longest_file, meanings_of, IsPlan, NamesFault};
ghost use Rattle.bench_file.specs.ReadingView.{Drafts, NamesFirstFault};

use crate::draft::Draft;
use crate::fault::LineRefused;
use crate::{Plan, PlanFault};
use std::alloc::Global;
use text_words::next_text_line;

/// How many bytes a bench file may have.
pub const LONGEST_FILE: usize = 65_536;

/// What the lines of a bench file say, or the first that breaks a rule.
fn read_lines(alloc: Global, bytes: &[u8]) -> Result<Draft, PlanFault>
    requires { length bytes.now ≤ longest_file }
    ensures ok { IfOk result (λ draft. Drafts draft (meanings_of bytes.now)) }
    ensures fault { IfErr result (NamesFirstFault (meanings_of bytes.now)) }
{
    let mut draft = Draft::new(alloc);
    let mut rest = bytes;
    let mut number = 0;
    while let Some((line, behind)) = next_text_line(rest) {
        number += 1;
        match draft.add(alloc, line) {
            Ok(()) => rest = behind,
            Err(LineRefused::Rule) => return Err(PlanFault::Line { line: number }),
            Err(LineRefused::Memory) => return Err(PlanFault::Memory),
        }
    }
    Ok(draft)
}

/// The plan of a bench file, or the line at which it is faulty.
pub fn read_plan(alloc: Global, bytes: &[u8]) -> Result<Plan, PlanFault>
    ensures plan { IfOk result (IsPlan bytes.now) }
    ensures fault { IfErr result (NamesFault bytes.now) }
{
    if bytes.len() > LONGEST_FILE {
        return Err(PlanFault::Line { line: 0 });
    }
    match read_lines(alloc, bytes)?.plan() {
        Some(plan) => Ok(plan),
        None => Err(PlanFault::Line { line: 0 }),
    }
}
