//! Laws of decoded lists. They have no code.

ghost use Rattle.std.specs.Prelude.{◌≡◌, ◌++◌, ◌∷◌, [], ℕ, List, Some, length, slice_get};
ghost use Rattle.bench_model.specs.declared.database.Kind.{Kind};
ghost use Rattle.bench_model.specs.declared.database.Bench.{Bench};
ghost use Rattle.bench_model.specs.declared.reading.Reading.{Reading};
ghost use Rattle.candump_log.specs.declared.log_line.LogLine.{LogLine};
ghost use Rattle.decoded_list.specs.Records.{records_at};
ghost use Rattle.decoded_list.specs.Decoded.{meaning_in, decoded, decoded_after, IsNumbered, IsOfALine};

/// The list of more lines begins with that of the first of them, and goes on with the records of the others; with one
/// line more, by the records of that line.
pub fn the_list_goes_on()
    ensures lines { (bus : ℕ) (kind : Kind) (benches : List Bench) (versions later : List ℕ) (lines more : List LogLine)
        → length versions ≡ length lines
        → decoded bus kind benches (versions ++ later) (lines ++ more)
        ≡ decoded bus kind benches versions lines
        ++ decoded_after bus kind benches lines (length (decoded bus kind benches versions lines)) later more }
    ensures line { (bus : ℕ) (kind : Kind) (benches : List Bench) (versions : List ℕ) (lines : List LogLine)
        (version : ℕ) (line : LogLine) → length versions ≡ length lines
        → decoded bus kind benches (versions ++ version ∷ []) (lines ++ line ∷ [])
        ≡ decoded bus kind benches versions lines
        ++ records_at (meaning_in bus (slice_get benches version)) kind (record { bus = bus; version = version }) lines
        (length (decoded bus kind benches versions lines)) line }
{}

/// The number of a record is its place in the list, from 0.
pub fn records_are_numbered_by_their_places()
    ensures { (bus : ℕ) (kind : Kind) (benches : List Bench) (versions : List ℕ) (lines : List LogLine) →
        IsNumbered bus 0 (decoded bus kind benches versions lines) }
{}

/// Each record is of one of the lines, and has that line's version and stamp.
pub fn a_record_is_of_a_line()
    ensures { (bus : ℕ) (kind : Kind) (benches : List Bench) (versions : List ℕ) (lines : List LogLine) (i : ℕ) (r : Reading) →
        slice_get (decoded bus kind benches versions lines) i ≡ Some r → IsOfALine versions lines r }
{}
