//! Laws of the text of a bench. They have no code.
ghost use Rattle.std.specs.Prelude.{◌≡◌, ◌++◌, ◌∷◌, [], ℕ, List, length, take, Some, slice_get};
ghost use Rattle.std.specs.Io.KnownBytes.{append_known};
ghost use Rattle.port_io.specs.OtherSide.{SourceState, SinkState};
ghost use Rattle.bench_model.specs.declared.database.Bench.{Bench};
ghost use Rattle.subscriber_text.specs.Wants.{WantList};
ghost use Rattle.bench_text.specs.BenchText.{whole_text, part_text, bench_text};
ghost use Rattle.bench_text.specs.LogsRead.{HaveLeft, StopsAt};
ghost use Rattle.bench_text.specs.Printing.{PrintsTo};

use bus_text::the_text_goes_on;

/// The text of more buses goes on where that of the first of them stops; and what is said of a log that stopped is a
/// prefix of what is said of the whole log, so that a fault's text is a prefix of the text of the bench.
pub fn the_text_of_a_bench_goes_on()
    ensures none { (w : WantList) (bench : Bench) → bench_text w bench [] ≡ [] }
    ensures bus { (w : WantList) (bench : Bench) (logs : List (List ℕ)) (bytes : List ℕ)
        → bench_text w bench (logs ++ bytes ∷ []) ≡ bench_text w bench logs ++ whole_text w bench (length logs) bytes }
    ensures more { (w : WantList) (bench : Bench) (logs more : List (List ℕ))
        → (rest : List ℕ) × (bench_text w bench (logs ++ more) ≡ bench_text w bench logs ++ rest) }
    ensures part { (w : WantList) (bench : Bench) (place : ℕ) (took left : List ℕ)
        → (rest : List ℕ) × (whole_text w bench place (took ++ left) ≡ part_text w bench place took ++ rest) }
    ensures fault { (w : WantList) (bench : Bench) (logs more : List (List ℕ)) (took left : List ℕ)
        → (rest : List ℕ) × (bench_text w bench (logs ++ (took ++ left) ∷ more)
        ≡ (bench_text w bench logs ++ part_text w bench (length logs) took) ++ rest) }
{
    the_text_goes_on()
}

/// Where all logs show their bytes, those of the logs before the one at which a print stopped are the first, and that
/// log's own are next; and what was written is a prefix of the text of the bench.
pub fn a_fault_leaves_a_prefix_written()
    ensures heard { (place : ℕ) (logs logs_now : List SourceState) (s : StopsAt place logs logs_now) (bytes : List (List ℕ))
        → HaveLeft logs bytes → HaveLeft s.heard (take place bytes) }
    ensures log { (place : ℕ) (logs logs_now : List SourceState) (s : StopsAt place logs logs_now) (bytes : List (List ℕ))
        → HaveLeft logs bytes → (left : List ℕ) × (slice_get bytes place ≡ Some left) × (s.log.left ≡ Some left) }
    ensures prefix { (w : WantList) (bench : Bench) (place : ℕ) (logs logs_now : List SourceState) (out out_now : SinkState)
        → PrintsTo w bench place logs logs_now out out_now → (bytes : List (List ℕ)) → HaveLeft logs bytes
        → (sent ahead : List ℕ) × (out_now.written ≡ append_known out.written sent)
        × (sent ++ ahead ≡ bench_text w bench bytes) }
{
    the_text_goes_on()
}
