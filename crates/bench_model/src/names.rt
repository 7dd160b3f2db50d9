//! The law of the names in a meaning. It has no code.

ghost use Rattle.std.specs.Prelude.{◌≡◌, ℕ, List};
ghost use Rattle.bench_model.specs.declared.database.Bench.{Bench};
ghost use Rattle.bench_model.specs.declared.reading.Ask.{Ask};
ghost use Rattle.bench_model.specs.declared.reading.Plain.{Plain};
ghost use Rattle.bench_model.specs.Meaning.{bench_meaning};
ghost use Rattle.bench_model.specs.Names.{HasNamesAt};

/// The names in a meaning are those of one message of the bus's database and of that message's signals.
pub fn names_in_a_meaning()
    ensures { (bench : Bench) (place : ℕ) (ask : Ask) (bytes : List ℕ) (plain : Plain) →
        bench_meaning bench place ask bytes ≡ Some plain → HasNamesAt bench place plain }
{}
