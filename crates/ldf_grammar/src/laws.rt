//! Laws about the definitions that the contracts cite. They have no code of their own.

ghost use Rattle.std.specs.Prelude.{◌≡◌, ◌⊎◌, ◌↔◌, ℕ, List, Some};
ghost use Rattle.decisions.specs.Decisions.{Decides};
ghost use Rattle.bench_model.specs.declared.database.Database.{Database};
ghost use Rattle.sig_text.specs.declared.token.Token.{Token};
ghost use Rattle.token_forms.specs.Names.{HasNames};
ghost use Rattle.token_forms.specs.Runs.{IsLongestRun, run_of};
ghost use Rattle.ldf_grammar.specs.Statements.{FirstRow, Parses};
ghost use Rattle.ldf_grammar.specs.StatementForms.{after_first, whole_statement};
ghost use Rattle.ldf_grammar.specs.Described.{IsDatabaseOf, HasFault};
ghost use Rattle.ldf_grammar.specs.declared.statement.Statement.{Statement as AnyStatement};
ghost use Rattle.ldf_grammar.specs.declared.fault.LdfFault.{LdfFault};

use crate::statement::Statement;
use bench_model::{valid_keeps_rules, verdict_is_unique};
use multiplex_tree::signals_without_parents;
use sig_text::reading_is_unique;
use token_forms::{forms_find_what_parses, one_longest_run, one_scale_or_none};

/// A text describes one database at most or has one fault at most, and never both.
pub fn description_is_unique()
    ensures one { (text : List ℕ) (a b : Database) → IsDatabaseOf text a → IsDatabaseOf text b → a ≡ b }
    ensures one_fault { (text : List ℕ) (a b : LdfFault) → HasFault text a → HasFault text b → a ≡ b }
    ensures never_both { (text : List ℕ) (database : Database) (fault : LdfFault) →
        IsDatabaseOf text database → ¬ HasFault text fault }
{
    reading_is_unique();
    one_longest_run::<Statement>();
    forms_are_statements();
    one_scale_or_none();
    verdict_is_unique();
}

/// Each text describes a database or has a fault.
pub fn description_exists()
    ensures { (text : List ℕ) →
        ((database : Database) × IsDatabaseOf text database) ⊎ ((fault : LdfFault) × HasFault text fault) }
{
    reading_is_unique();
    one_longest_run::<Statement>();
    forms_are_statements();
    one_scale_or_none();
    verdict_is_unique();
    signals_without_parents();
}

/// Each text describes one database or has one fault, and never both.
pub fn one_description_or_one_fault()
    ensures { Decides IsDatabaseOf HasFault }
{
    description_exists();
    description_is_unique();
}

/// The statements of a text are the longest run of whole statements behind the first one, and the only one.
pub fn statements_are_the_longest_run()
    ensures longest { (text : List ℕ) (tokens : List Token) →
        IsLongestRun (whole_statement text) tokens (run_of (whole_statement text) tokens).0 (run_of (whole_statement text) tokens).1 }
    ensures only { (text : List ℕ) (tokens : List Token) (statements : List AnyStatement) (rest : List Token) →
        IsLongestRun (whole_statement text) tokens statements rest →
        (statements ≡ (run_of (whole_statement text) tokens).0) × (rest ≡ (run_of (whole_statement text) tokens).1) }
{
    one_longest_run::<Statement>();
}

/// A statement is found at the front of tokens exactly where it is there, and so is the first one.
pub fn forms_are_statements()
    ensures statement { (text : List ℕ) (tokens : List Token) (statement : AnyStatement) (rest : List Token) →
        (whole_statement text tokens ≡ Some (statement, rest)) ↔ Parses text tokens statement rest }
    ensures first { (text : List ℕ) (tokens rest : List Token) →
        (after_first text tokens ≡ Some rest) ↔ FirstRow text tokens rest }
{
    forms_find_what_parses();
}

/// The names of a described database's messages and signals are words of 1 to 128 bytes.
pub fn names_are_words()
    ensures { (text : List ℕ) (database : Database) → IsDatabaseOf text database → HasNames database }
{
    forms_are_statements();
    valid_keeps_rules();
}
