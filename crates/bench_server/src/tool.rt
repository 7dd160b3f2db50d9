//! The top call: what the program does for the words of its command line.

ghost use Rattle.std.specs.Prelude.{◌≡◌, [], map, vec_len};
ghost use Rattle.tool_words.specs.Commands.{command_of};
ghost use Rattle.tool_words.specs.WordView.{words_of};
ghost use Rattle.bench_inputs.specs.Asking.{library_state};
ghost use Rattle.bench_inputs.specs.Reading.{log_state};
ghost use Rattle.bus_text.specs.Prefixes.{sink_state};
ghost use Rattle.tool_words.specs.Commands.{Decodes, Checks};
ghost use Rattle.bench_server.specs.Outcomes.{EndsDecode};
ghost use Rattle.bench_server.specs.Loading.{seen, Keeps};
ghost use Rattle.bench_server.specs.Tool.{EndsTool, AgreesWithFiles, ReportsTool};
ghost use Rattle.std.specs.Prelude.{Some};

use crate::Status;
use crate::checking::check;
use crate::decoding::decode;
use crate::ended::{Ended, status_of};
use crate::milling::mill;
use crate::report::report;
use bench_file::limits_of_a_plan;
use bench_inputs::read_bench;
use bench_loader::{one_check, one_verdict};
use multiplex_tree::List;
use port_io::{Library, Sink};
use std::alloc::Global;
use tool_words::{Command, command_of};

/// What a run of the tool left: its status, and the logs that were opened, in order of buses, as they were left.
#[derive(Drop)]
pub struct Ran<S> {
    pub status: Status,
    pub logs: List<S>,
}

/// Decodes the logs of the bench file of this name.
fn decode_bench<B: Library, K: Sink, E: Sink>(
    alloc: Global,
    bench: &str,
    library: &mut B,
    out: &mut K,
    err: &mut E,
    logs: &mut Vec<B::Log>,
) -> Status
    requires none { logs.old.items ≡ [] }
    requires empty { vec_len logs.old ≡ 0 }
    ensures ends { EndsDecode bench.now (seen
        (library_state (B.files library.old) (B.open_faults library.old) (B.more_faults library.old) (B.strays library.old))
        (library_state (B.files library.new) (B.open_faults library.new) (B.more_faults library.new) (B.strays library.new))
        (sink_state (K.written out.old) (K.write_faults out.old)) (sink_state (K.written out.new) (K.write_faults out.new))
        (map (λ log. log_state (B.Log.left log) (B.Log.taken log) (B.Log.read_faults log) (B.Log.ended log)) logs.new.items))
        result }
    ensures keeps { Keeps (seen
        (library_state (B.files library.old) (B.open_faults library.old) (B.more_faults library.old) (B.strays library.old))
        (library_state (B.files library.new) (B.open_faults library.new) (B.more_faults library.new) (B.strays library.new))
        (sink_state (K.written out.old) (K.write_faults out.old)) (sink_state (K.written out.new) (K.write_faults out.new)) []) }
    ensures line { ReportsTool (B.files library.old) (Some (Decodes bench.now))
        (sink_state (E.written err.old) (E.write_faults err.old)) (sink_state (E.written err.new) (E.write_faults err.new)) result }
{
    limits_of_a_plan();
    let plan = match read_bench(alloc, library, bench) {
        Ok(plan) => plan,
        Err(refused) => return report(alloc, err, &[], status_of(Ended::Plan(refused))),
    };
    let end = decode(alloc, &plan, library, out, logs);
    let status = status_of(Ended::Decode(end));
    report(alloc, err, plan.buses.items(), status)
}

/// Does what the words say, and answers the status.
fn run<B: Library, K: Sink, E: Sink>(
    alloc: Global,
    words: &[String],
    library: &mut B,
    out: &mut K,
    err: &mut E,
    logs: &mut Vec<B::Log>,
) -> Status
    requires none { logs.old.items ≡ [] }
    requires empty { vec_len logs.old ≡ 0 }
    ensures ends { EndsTool (command_of (words_of words.now)) (seen
        (library_state (B.files library.old) (B.open_faults library.old) (B.more_faults library.old) (B.strays library.old))
        (library_state (B.files library.new) (B.open_faults library.new) (B.more_faults library.new) (B.strays library.new))
        (sink_state (K.written out.old) (K.write_faults out.old)) (sink_state (K.written out.new) (K.write_faults out.new))
        (map (λ log. log_state (B.Log.left log) (B.Log.taken log) (B.Log.read_faults log) (B.Log.ended log)) logs.new.items))
        result }
    ensures keeps { Keeps (seen
        (library_state (B.files library.old) (B.open_faults library.old) (B.more_faults library.old) (B.strays library.old))
        (library_state (B.files library.new) (B.open_faults library.new) (B.more_faults library.new) (B.strays library.new))
        (sink_state (K.written out.old) (K.write_faults out.old)) (sink_state (K.written out.new) (K.write_faults out.new)) []) }
    ensures line { ReportsTool (B.files library.old) (command_of (words_of words.now))
        (sink_state (E.written err.old) (E.write_faults err.old)) (sink_state (E.written err.new) (E.write_faults err.new)) result }
{
    match command_of(words) {
        Some(Command::Decode { bench }) => decode_bench(alloc, bench, library, out, err, logs),
        Some(Command::Check { file }) => {
            let status = check(alloc, library, file, out);
            report(alloc, err, &[], status)
        }
        Some(Command::Mill { frames }) => {
            let status = mill(alloc, frames, out);
            report(alloc, err, &[], status)
        }
        None => report(alloc, err, &[], status_of(Ended::Usage)),
    }
}

/// What the program does for the words of its command line: `decode BENCH` appends to `out` the text of each bus that
/// the bench file names, `check FILE` how much a database has, `mill N` the three numbers of so many generated frames;
/// any status but `Ok` appends its line to `err`.
pub fn run_tool<B: Library, K: Sink, E: Sink>(
    alloc: Global,
    words: &[String],
    library: &mut B,
    out: &mut K,
    err: &mut E,
) -> Ran<B::Log>
    // What each status was caused by, what it shows of the files, what was written, and which logs are handed back.
    ensures ends { EndsTool (command_of (words_of words.now)) (seen
        (library_state (B.files library.old) (B.open_faults library.old) (B.more_faults library.old) (B.strays library.old))
        (library_state (B.files library.new) (B.open_faults library.new) (B.more_faults library.new) (B.strays library.new))
        (sink_state (K.written out.old) (K.write_faults out.old)) (sink_state (K.written out.new) (K.write_faults out.new))
        (map (λ log. log_state (B.Log.left log) (B.Log.taken log) (B.Log.read_faults log) (B.Log.ended log)) result.logs))
        result.status }
    // The files decide: what they are refused for is named, and what they make is the text.
    ensures exact { AgreesWithFiles (command_of (words_of words.now)) (seen
        (library_state (B.files library.old) (B.open_faults library.old) (B.more_faults library.old) (B.strays library.old))
        (library_state (B.files library.new) (B.open_faults library.new) (B.more_faults library.new) (B.strays library.new))
        (sink_state (K.written out.old) (K.write_faults out.old)) (sink_state (K.written out.new) (K.write_faults out.new))
        (map (λ log. log_state (B.Log.left log) (B.Log.taken log) (B.Log.read_faults log) (B.Log.ended log)) result.logs))
        result.status }
    // The status's line was appended to `err`, or a prefix of it where that sink's count of faults rose.
    ensures line { ReportsTool (B.files library.old) (command_of (words_of words.now))
        (sink_state (E.written err.old) (E.write_faults err.old)) (sink_state (E.written err.new) (E.write_faults err.new))
        result.status }
    // No file changes, and no count falls.
    ensures keeps { Keeps (seen
        (library_state (B.files library.old) (B.open_faults library.old) (B.more_faults library.old) (B.strays library.old))
        (library_state (B.files library.new) (B.open_faults library.new) (B.more_faults library.new) (B.strays library.new))
        (sink_state (K.written out.old) (K.write_faults out.old)) (sink_state (K.written out.new) (K.write_faults out.new)) []) }
{
    one_verdict();
    one_check();
    let mut logs = Vec::new(alloc);
    let status = run(alloc, words, library, out, err, &mut logs);
    Ran {
        status,
        logs: List::of(logs),
    }
}
