//! Reading the bench file.

ghost use Rattle.bench_inputs.specs.Asking.{library_state};
ghost use Rattle.bench_inputs.specs.Reading.{ReadsPlan};

use crate::BenchRefused;
use bench_file::{LONGEST_FILE, Plan, PlanFault, read_plan};
use port_io::{Library, WholeRefused, read_whole};
use std::alloc::Global;

/// Opens, reads and judges the bench file of this name.
pub fn read_bench<B: Library>(
    alloc: Global,
    library: &mut B,
    name: &str,
) -> Result<Plan, BenchRefused>
    ensures { ReadsPlan
        (library_state (B.files library.old) (B.open_faults library.old) (B.more_faults library.old) (B.strays library.old))
        name.now result
        (library_state (B.files library.new) (B.open_faults library.new) (B.more_faults library.new) (B.strays library.new)) }
{
    let bytes = match read_whole(alloc, library, name, LONGEST_FILE) {
        Ok(bytes) => bytes,
        Err(WholeRefused::Open) => return Err(BenchRefused::Open),
        Err(WholeRefused::Read) => return Err(BenchRefused::Read),
        Err(WholeRefused::Long) => return Err(BenchRefused::Line { line: 0 }),
        Err(WholeRefused::Memory) => return Err(BenchRefused::Memory),
    };
    match read_plan(alloc, &bytes) {
        Ok(plan) => Ok(plan),
        Err(PlanFault::Line { line }) => Err(BenchRefused::Line { line }),
        Err(PlanFault::Memory) => Err(BenchRefused::Memory),
    }
}
