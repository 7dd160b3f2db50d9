//! `decode`: the buses of a plan, from their files to the output.

ghost use Rattle.std.specs.Prelude.{◌≡◌, ℕ, List, [], map, vec_len, IfOk, IfSome};
ghost use Rattle.bench_model.specs.ValidBench.{IsValidBench};
ghost use Rattle.bench_file.specs.declared.plan.Plan.{Plan as AnyPlan};
ghost use Rattle.bench_inputs.specs.Asking.{library_state};
ghost use Rattle.bench_inputs.specs.BenchFiles.{HasPlan};
ghost use Rattle.bench_inputs.specs.Reading.{log_state};
ghost use Rattle.bench_loader.specs.Verdict.{FitsRegion};
ghost use Rattle.bus_text.specs.Prefixes.{sink_state};
ghost use Rattle.bench_server.specs.ToolText.{bus_names, all_wanted};
ghost use Rattle.bench_server.specs.Outcomes.{EndsDecode};
ghost use Rattle.bench_server.specs.EndView.{decode_status};
ghost use Rattle.bench_server.specs.Loading.{seen, Keeps, ArePlannedBuses, LoadsDatabases, IsBenchOf, AnswersImage};

use crate::refused::DecodeRefused;
use bench_file::{Plan, PlannedBus};
use bench_inputs::{one_reading_of_databases, open_logs, read_databases};
use bench_loader::judge_bench;
use bench_model::{Bench, Text};
use bench_text::print_buses;
use bus_text::{BenchImage, TextBuffer};
use image_compiler::CompileRefused;
use port_io::{Library, Sink};
use std::alloc::{AllocError, Global};
use subscriber_text::Wants;

/// What printing takes before the first log is opened.
#[derive(Drop)]
struct Printing {
    wants: Wants,
    buffer: TextBuffer,
}

/// The names of the buses of a bench, in order.
fn names_of(alloc: Global, bench: &Bench) -> Result<Vec<Text>, AllocError>
    ensures { IfOk result (λ names. names.items ≡ bus_names bench.now) }
{
    let mut names = Vec::new(alloc);
    for bus in bench.buses.items() {
        names.push(bus.name.copy(alloc)?)?;
    }
    Ok(names)
}

/// Wants of everything, and a buffer with nothing in it.
fn printing_of(alloc: Global, bench: &Bench) -> Result<Printing, AllocError>
    ensures wants { IfOk result (λ p. p.wants ≡ all_wanted bench.now) }
    ensures buffer { IfOk result (λ p. p.buffer ≡ []) }
{
    let names = names_of(alloc, bench)?;
    Ok(Printing {
        wants: Wants::all(alloc, &names)?,
        buffer: TextBuffer::new(alloc)?,
    })
}

/// Reads the databases of these buses and then judges them, in order.
fn load_databases<B: Library>(
    alloc: Global,
    library: &mut B,
    buses: &[PlannedBus],
) -> Result<Bench, DecodeRefused>
    requires planned { ArePlannedBuses buses.now }
    ensures { LoadsDatabases
        (library_state (B.files library.old) (B.open_faults library.old) (B.more_faults library.old) (B.strays library.old))
        buses.now result
        (library_state (B.files library.new) (B.open_faults library.new) (B.more_faults library.new) (B.strays library.new)) }
{
    one_reading_of_databases();
    let files = read_databases(alloc, library, buses)?;
    Ok(judge_bench(alloc, buses, &files)?)
}

/// The bench with its image, where that fits into so many words.
fn image_of(alloc: Global, bench: Bench, words: u32) -> Result<BenchImage, DecodeRefused>
    requires valid { IsValidBench bench }
    ensures { AnswersImage words bench result }
{
    match BenchImage::compile(alloc, bench, words as usize) {
        Ok(image) => Ok(image),
        Err(CompileRefused::TooLarge { need }) => Err(DecodeRefused::Large {
            need,
            room: u64::from(words),
        }),
        Err(CompileRefused::Memory) => Err(DecodeRefused::Memory),
    }
}

/// Opens the logs of these buses and prints the text of each, decoded over the image.
fn decode_logs<B: Library, K: Sink>(
    alloc: Global,
    buses: &[PlannedBus],
    image: &mut BenchImage,
    library: &mut B,
    out: &mut K,
    logs: &mut Vec<B::Log>,
) -> Result<(), DecodeRefused>
    requires none { logs.old.items ≡ [] }
    requires empty { vec_len logs.old ≡ 0 }
    requires bench { IsBenchOf
        (library_state (B.files library.old) (B.open_faults library.old) (B.more_faults library.old) (B.strays library.old))
        buses.now image.old }
    ensures ends { (name : List ℕ) (plan : AnyPlan) → plan.buses ≡ buses.now → FitsRegion plan image.old
        → IfSome (B.files library.old) (λ files. HasPlan files name plan)
        → EndsDecode name (seen
        (library_state (B.files library.old) (B.open_faults library.old) (B.more_faults library.old) (B.strays library.old))
        (library_state (B.files library.new) (B.open_faults library.new) (B.more_faults library.new) (B.strays library.new))
        (sink_state (K.written out.old) (K.write_faults out.old)) (sink_state (K.written out.new) (K.write_faults out.new))
        (map (λ log. log_state (B.Log.left log) (B.Log.taken log) (B.Log.read_faults log) (B.Log.ended log)) logs.new.items))
        (decode_status result) }
    ensures keeps { Keeps (seen
        (library_state (B.files library.old) (B.open_faults library.old) (B.more_faults library.old) (B.strays library.old))
        (library_state (B.files library.new) (B.open_faults library.new) (B.more_faults library.new) (B.strays library.new))
        (sink_state (K.written out.old) (K.write_faults out.old)) (sink_state (K.written out.new) (K.write_faults out.new)) []) }
{
    let Printing { wants, mut buffer } = printing_of(alloc, image.bench())?;
    logs.reserve(buses.len())?;
    open_logs(library, buses, logs)?;
    print_buses(alloc, image, &wants, logs, &mut buffer, out)?;
    Ok(())
}

/// Decodes the buses of a plan.
pub(crate) fn decode<B: Library, K: Sink>(
    alloc: Global,
    plan: &Plan,
    library: &mut B,
    out: &mut K,
    logs: &mut Vec<B::Log>,
) -> Result<(), DecodeRefused>
    requires planned { ArePlannedBuses plan.now.buses }
    requires none { logs.old.items ≡ [] }
    requires empty { vec_len logs.old ≡ 0 }
    ensures ends { (name : List ℕ) → IfSome (B.files library.old) (λ files. HasPlan files name plan.now)
        → EndsDecode name (seen
        (library_state (B.files library.old) (B.open_faults library.old) (B.more_faults library.old) (B.strays library.old))
        (library_state (B.files library.new) (B.open_faults library.new) (B.more_faults library.new) (B.strays library.new))
        (sink_state (K.written out.old) (K.write_faults out.old)) (sink_state (K.written out.new) (K.write_faults out.new))
        (map (λ log. log_state (B.Log.left log) (B.Log.taken log) (B.Log.read_faults log) (B.Log.ended log)) logs.new.items))
        (decode_status result) }
    ensures keeps { Keeps (seen
        (library_state (B.files library.old) (B.open_faults library.old) (B.more_faults library.old) (B.strays library.old))
        (library_state (B.files library.new) (B.open_faults library.new) (B.more_faults library.new) (B.strays library.new))
        (sink_state (K.written out.old) (K.write_faults out.old)) (sink_state (K.written out.new) (K.write_faults out.new)) []) }
{
    let buses = plan.buses.items();
    let bench = load_databases(alloc, library, buses)?;
    let mut image = image_of(alloc, bench, plan.words)?;
    decode_logs(alloc, buses, &mut image, library, out, logs)
}
