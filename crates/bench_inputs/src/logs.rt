//! Opening the logs, in order of buses.

ghost use Rattle.std.specs.Prelude.{◌≡◌, ◌≤◌, [], length, map, vec_len, vec_capacity, OnOk};
ghost use Rattle.bench_inputs.specs.Asking.{library_state};
ghost use Rattle.bench_inputs.specs.BenchFiles.{log_names};
ghost use Rattle.bench_inputs.specs.Reading.{log_state, OpensLogs};

use crate::LogRefused;
use bench_file::PlannedBus;
use port_io::{Library, Source};

/// Opens the logs of these buses in order, into a vector that has room for them: out of memory loses no log.
pub fn open_logs<B: Library>(
    library: &mut B,
    buses: &[PlannedBus],
    logs: &mut Vec<B::Log>,
) -> Result<(), LogRefused>
    requires none { logs.old.items ≡ [] }
    requires empty { vec_len logs.old ≡ 0 }
    requires room { length buses.now ≤ vec_capacity logs.old }
    ensures opens { OpensLogs
        (library_state (B.files library.old) (B.open_faults library.old) (B.more_faults library.old) (B.strays library.old))
        (log_names buses.now) result
        (map (λ log. log_state (B.Log.left log) (B.Log.taken log) (B.Log.read_faults log) (B.Log.ended log)) logs.new.items)
        (library_state (B.files library.new) (B.open_faults library.new) (B.more_faults library.new) (B.strays library.new)) }
    ensures count { OnOk result (vec_len logs.new ≡ length buses.now) }
{
    for bus in buses {
        let Ok(log) = library.log(bus.log.as_str()) else {
            return Err(LogRefused);
        };
        logs.push(log).unwrap();
    }
    Ok(())
}
