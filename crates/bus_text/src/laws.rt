//! Laws of the text of a bus. They have no code.
ghost use Rattle.std.specs.Prelude.{◌≡◌, ◌++◌, ◌∷◌, [], ℕ, List, length};
ghost use Rattle.std.specs.Io.KnownBytes.{append_known};
ghost use Rattle.bench_model.specs.declared.database.Bench.{Bench};
ghost use Rattle.bench_model.specs.Meaning.{bench_meaning};
ghost use Rattle.candump_log.specs.declared.log_line.LogLine.{LogLine};
ghost use Rattle.decoded_list.specs.Records.{records_at};
ghost use Rattle.subscriber_text.specs.Wants.{WantList};
ghost use Rattle.bus_text.specs.declared.bus.BusPlace.{BusPlace};
ghost use Rattle.bus_text.specs.BusText.{records_of, text_so_far, bus_text};
ghost use Rattle.bus_text.specs.Buffering.{Output, Buffers};
ghost use Rattle.bus_text.specs.LineView.{line_text, end_text};

use decoded_list::the_list_goes_on;

/// The text of more lines goes on where that of the first of them stops, line by line, up to the end: so what a
/// log says first is a prefix of the text of the whole, and without a line it is empty.
pub fn the_text_goes_on()
    ensures none { (w : WantList) (bench : Bench) (bus : BusPlace) → text_so_far w bench bus [] ≡ [] }
    ensures records { (bench : Bench) (bus : BusPlace) (lines : List LogLine) (line : LogLine)
        → records_of bench bus (lines ++ line ∷ []) ≡ records_of bench bus lines
        ++ records_at (bench_meaning bench bus.place) bus.kind (record { bus = bus.place; version = 0 }) lines
        (length (records_of bench bus lines)) line }
    ensures line { (w : WantList) (bench : Bench) (bus : BusPlace) (lines : List LogLine) (line : LogLine)
        → text_so_far w bench bus (lines ++ line ∷ []) ≡ text_so_far w bench bus lines
        ++ line_text w bench bus lines line }
    ensures end { (w : WantList) (bench : Bench) (bus : BusPlace) (lines : List LogLine)
        → bus_text w bench bus lines ≡ text_so_far w bench bus lines ++ end_text w bench bus lines }
    ensures prefix { (w : WantList) (bench : Bench) (bus : BusPlace) (lines more : List LogLine)
        → (rest : List ℕ) × (bus_text w bench bus (lines ++ more) ≡ text_so_far w bench bus lines ++ rest) }
{
    the_list_goes_on()
}

/// Two uses of a buffer, one after another, are one use with both texts joined, and a buffer that is not used has
/// been given nothing. Where nothing was pending before and nothing is pending now, just what was given was written.
pub fn uses_of_a_buffer_are_one()
    ensures joined { (before mid now : Output) (first second : List ℕ)
        → Buffers before first mid → Buffers mid second now → Buffers before (first ++ second) now }
    ensures unused { (s : Output) → Buffers s [] s }
    ensures written { (before now : Output) (given : List ℕ) → Buffers before given now
        → before.pending ≡ [] → now.pending ≡ [] → now.written ≡ append_known before.written given }
{}
