//! The buses of a bench, printed one after another.
ghost use Rattle.std.specs.Prelude.{◌≡◌, ◌<◌, ◌≤◌, [], length, map, false, All, vec_len};
ghost use Rattle.candump_log.specs.LinesState.{source_state};
ghost use Rattle.bench_model.specs.ValidBench.{most_buses};
ghost use Rattle.bus_text.specs.Buffering.{output};
ghost use Rattle.bus_text.specs.Prefixes.{sink_state};
ghost use Rattle.bus_text.specs.Printing.{IsWritten as IsBusWritten};
ghost use Rattle.bench_text.specs.Printing.{PrintsBuses, IsWritten};
ghost use Rattle.bench_text.specs.BusAt.{HasLog, PrintsAt};

use crate::BusesRefused;
use crate::refused::refused_at;
use bus_text::{BenchImage, BusRefused, Printed, TextBuffer, print_bus, uses_of_a_buffer_are_one};
use port_io::{Sink, Source};
use std::alloc::Global;
use subscriber_text::Wants;

/// Prints the bus at this place from its log, which is put back among the others.
fn print_at<S: Source, K: Sink>(
    alloc: Global,
    image: &mut BenchImage,
    place: u32,
    wants: &Wants,
    logs: &mut Vec<S>,
    buffer: &mut TextBuffer,
    out: &mut K,
) -> Result<(), BusRefused>
    requires bus { place < length image.old.buses }
    requires count { vec_len logs.old ≡ length image.old.buses }
    requires log { HasLog place (map (λ log. source_state (S.left log) (S.taken log) (S.read_faults log) (S.ended log)) logs.old.items) }

    ensures prints { PrintsAt wants.now image.old place
        (map (λ log. source_state (S.left log) (S.taken log) (S.read_faults log) (S.ended log)) logs.old.items)
        (map (λ log. source_state (S.left log) (S.taken log) (S.read_faults log) (S.ended log)) logs.new.items)
        (output (K.written out.old) (K.write_faults out.old) buffer.old)
        (output (K.written out.new) (K.write_faults out.new) buffer.new) result }
    ensures written { IsBusWritten result buffer.new }
    ensures count { vec_len logs.new ≡ vec_len logs.old }
    ensures bench { image.new ≡ image.old }
    ensures log_sides { map S.other logs.new.items ≡ map S.other logs.old.items }
    ensures other { K.other out.new ≡ K.other out.old }
{
    let log = logs.remove(place as usize);
    let Printed { log, end } = print_bus(alloc, image, place, wants, log, buffer, out);
    logs.insert(place as usize, log).unwrap();
    end
}

/// Prints the texts of all buses of a bench in order, each from its log, decoded over the image of the bench, and writes
/// all of it. Each log stays at its place, whatever is answered.
pub fn print_buses<S: Source, K: Sink>(
    alloc: Global,
    image: &mut BenchImage,
    wants: &Wants,
    logs: &mut Vec<S>,
    buffer: &mut TextBuffer,
    out: &mut K,
) -> Result<(), BusesRefused>
    requires count { vec_len logs.old ≡ length image.old.buses }
    requires fresh { All (λ log. S.ended log ≡ false) logs.old.items }
    requires empty { buffer.old ≡ [] }

    // What was taken of each log, what was written, and the cause of the answer.
    ensures prints { PrintsBuses wants.now image.old
        (map (λ log. source_state (S.left log) (S.taken log) (S.read_faults log) (S.ended log)) logs.old.items)
        (map (λ log. source_state (S.left log) (S.taken log) (S.read_faults log) (S.ended log)) logs.new.items)
        (sink_state (K.written out.old) (K.write_faults out.old))
        (sink_state (K.written out.new) (K.write_faults out.new)) result }
    ensures written { IsWritten result buffer.new }
    ensures count { vec_len logs.new ≡ vec_len logs.old }
    ensures bench { image.new ≡ image.old }
    ensures log_sides { map S.other logs.new.items ≡ map S.other logs.old.items }
    ensures other { K.other out.new ≡ K.other out.old }
{
    uses_of_a_buffer_are_one();
    for place in 0..image.bench().buses.items().len() as u32 {
        if let Err(why) = print_at(alloc, image, place, wants, logs, buffer, out) {
            return Err(refused_at(place, why));
        }
    }
    buffer.flush(out)?;
    Ok(())
}
