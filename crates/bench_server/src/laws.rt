//! Laws of the definitions that the contract of `run_tool` cites. They have no code.

ghost use Rattle.std.specs.Prelude.{◌≡◌, ℕ, List, Some};
ghost use Rattle.bench_model.specs.declared.database.Database.{Database};
ghost use Rattle.bench_inputs.specs.Asking.{Files};
ghost use Rattle.bench_loader.specs.Checking.{CheckVerdict, IsCheckVerdict, HoldsNamed};
ghost use Rattle.bench_loader.specs.Verdict.{Run, Verdict, IsVerdict, IsRun};
ghost use Rattle.bench_server.specs.declared.status.Status.{Status};
ghost use Rattle.bench_server.specs.Outcomes.{Seen, EndsDecode};
ghost use Rattle.bench_server.specs.CheckOutcomes.{EndsCheck};
ghost use Rattle.bench_server.specs.MillOutcomes.{EndsMill};
ghost use Rattle.bench_server.specs.Tool.{NothingFailed, AreShort, IsWhole};

use bench_loader::{one_check, one_verdict};

/// The files of a bench decide between one text and one refusal: they have one verdict. So has a file that is checked.
pub fn one_end()
    ensures some { (files : Files) (bench : List ℕ) → (v : Verdict) × IsVerdict files bench v }
    ensures one { (files : Files) (bench : List ℕ) (v w : Verdict) → IsVerdict files bench v → IsVerdict files bench w → v ≡ w }
    ensures some_check { (files : Files) (file : List ℕ) → (v : CheckVerdict) × IsCheckVerdict files file v }
    ensures one_check { (files : Files) (file : List ℕ) (v w : CheckVerdict) → IsCheckVerdict files file v
        → IsCheckVerdict files file w → v ≡ w }
{
    one_verdict();
    one_check();
}

/// Where the files make a run whose logs are shorter than 2^40 bytes, and nothing of the outside failed, the run is
/// whole, unless memory ran out. So are the check of a file that is a database, and each run of `mill`.
pub fn a_run_without_faults_is_whole()
    ensures decode { (files : Files) (bench : List ℕ) (run : Run) (s : Seen) (end : Status) → s.library.files ≡ Some files
        → IsRun files bench run → AreShort run.logs → EndsDecode bench s end → NothingFailed s → IsWhole end }
    ensures check { (files : Files) (file : List ℕ) (d : Database) (s : Seen) (end : Status) → s.library.files ≡ Some files
        → HoldsNamed files file d → EndsCheck file s end → NothingFailed s → IsWhole end }
    ensures mill { (frames : ℕ) (s : Seen) (end : Status) → EndsMill frames s end → NothingFailed s → IsWhole end }
{
    one_verdict();
    one_check();
}
