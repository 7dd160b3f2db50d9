//! Laws of the files of a bench. Each function is a law: it does nothing, and its clauses are proved of the definitions.

ghost use Rattle.std.specs.Prelude.{◌≡◌, ℕ, List};
ghost use Rattle.decisions.specs.Decisions.{Decides};
ghost use Rattle.bench_model.specs.declared.database.Kind.{Kind};
ghost use Rattle.bench_model.specs.declared.database.Database.{Database};
ghost use Rattle.bench_inputs.specs.declared.database_file.DatabaseFile.{DatabaseFile};
ghost use Rattle.bench_inputs.specs.Asking.{Files};
ghost use Rattle.bench_loader.specs.declared.fault.DatabaseFault.{DatabaseFault};
ghost use Rattle.bench_loader.specs.Judging.{Holds, IsRefused, IsBusOf, IsRefusedOnBus};
ghost use Rattle.bench_loader.specs.Checking.{CheckVerdict, IsCheckVerdict};
ghost use Rattle.bench_loader.specs.Verdict.{Verdict, IsVerdict};

use bench_file::one_plan_or_one_fault;
use bench_inputs::{one_reading_of_a_database, one_reading_of_databases};
use dbc_grammar::one_database_or_one_fault;
use ldf_grammar::one_description_or_one_fault;

/// On a bus of a kind a file holds one database or is refused for one fault.
pub fn one_judgement_of_a_file()
    ensures { Decides (λ (p : Kind × DatabaseFile) (d : Database). Holds p.0 p.1 d)
        (λ (p : Kind × DatabaseFile) (fault : DatabaseFault). IsRefused p.0 p.1 fault) }
{
    one_database_or_one_fault();
    one_description_or_one_fault();
}

/// A planned bus and its file make one bus or are refused for one fault.
pub fn one_judgement()
    ensures { Decides IsBusOf IsRefusedOnBus }
{
    one_judgement_of_a_file();
}

/// The files of a bench have one verdict.
pub fn one_verdict()
    ensures some { (files : Files) (name : List ℕ) → (v : Verdict) × IsVerdict files name v }
    ensures one { (files : Files) (name : List ℕ) (v w : Verdict)
        → IsVerdict files name v → IsVerdict files name w → v ≡ w }
{
    one_plan_or_one_fault();
    one_reading_of_databases();
    one_judgement();
}

/// A file that is checked has one verdict.
pub fn one_check()
    ensures some { (files : Files) (name : List ℕ) → (v : CheckVerdict) × IsCheckVerdict files name v }
    ensures one { (files : Files) (name : List ℕ) (v w : CheckVerdict)
        → IsCheckVerdict files name v → IsCheckVerdict files name w → v ≡ w }
{
    one_reading_of_a_database();
    one_judgement_of_a_file();
}
