//! Laws of the files of a bench. Each function is a law: it does nothing, and its clauses are proved of the
//! definitions.

ghost use Rattle.std.specs.Prelude.{◌≡◌, ℕ, List, All, Some, None, IsSome};
ghost use Rattle.std.specs.List.{AllZip};
ghost use Rattle.decisions.specs.Decisions.{Decides};
ghost use Rattle.decisions.specs.ListDecisions.{FirstFailsAt};
ghost use Rattle.port_io.specs.Library.{named};
ghost use Rattle.bench_inputs.specs.Asking.{Files, strays_over};
ghost use Rattle.bench_inputs.specs.BenchFiles.{HasDatabase, IsDatabaseOfBus, LacksDatabase};

/// Calls for names that are all there are no strays.
pub fn files_that_are_there()
    ensures { (files : Files) (names : List (List ℕ)) (strays : ℕ) → All (λ name. IsSome (named files name)) names
        → strays_over (Some files) names strays ≡ strays }
{}

/// The database of a name is there and is read in one way, or it is missing.
pub fn one_reading_of_a_database()
    ensures { (files : Files) → Decides (HasDatabase files) (λ (name : List ℕ) (why : Unit {0}). named files name ≡ None) }
{}

/// The databases of buses are there and are read in one way, or a first one is missing.
pub fn one_reading_of_databases()
    ensures { (files : Files) → Decides (AllZip (IsDatabaseOfBus files)) (FirstFailsAt (IsDatabaseOfBus files) (LacksDatabase files)) }
{}
