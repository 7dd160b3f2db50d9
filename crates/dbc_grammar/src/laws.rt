//! Laws about the definitions that the contracts cite. They have no code of their own, but rest on laws of the crates
//! below.

ghost use Rattle.std.specs.Prelude.{◌≡◌, ◌↔◌, ◌⊎◌, ℕ, List, Some};
ghost use Rattle.decisions.specs.Decisions.{Decides};
ghost use Rattle.bench_model.specs.declared.database.Database.{Database};
ghost use Rattle.dbc_grammar.specs.declared.fault.DbcFault.{DbcFault};
ghost use Rattle.sig_text.specs.declared.token.Token.{Token};
ghost use Rattle.token_forms.specs.Names.{HasNames};
ghost use Rattle.token_forms.specs.Runs.{run_of};
ghost use Rattle.token_forms.specs.Grammar.{Each};
ghost use Rattle.dbc_grammar.specs.declared.statement.Statement.{Statement as AnyStatement};
ghost use Rattle.dbc_grammar.specs.Forms.{statement_at};
ghost use Rattle.dbc_grammar.specs.Statements.{Parses};
ghost use Rattle.dbc_grammar.specs.Contract.{IsDatabaseOf, HasFault};

use crate::statement::{SignalForm, Statement, ValueText};
use bench_model::{valid_keeps_rules, verdict_is_unique};
use multiplex_tree::{Range, resolution_is_unique, trees_of_marks};
use sig_text::{Token, reading_is_unique};
use token_forms::{forms_find_what_parses, one_longest_run, one_scale_or_none};

/// Bytes have one database at most or one fault at most, and never both.
pub fn database_is_unique()
    ensures one { (bytes : List ℕ) (d e : Database) → IsDatabaseOf bytes d → IsDatabaseOf bytes e → d ≡ e }
    ensures one_fault { (bytes : List ℕ) (a b : DbcFault) → HasFault bytes a → HasFault bytes b → a ≡ b }
    ensures never_both { (bytes : List ℕ) (d : Database) (fault : DbcFault) →
        IsDatabaseOf bytes d → ¬ HasFault bytes fault }
{
    one_scale_or_none();
    statements_are_the_longest_run();
    resolution_is_unique();
    reading_is_unique();
    verdict_is_unique();
}

/// All bytes have a database or a fault.
pub fn database_exists()
    ensures { (bytes : List ℕ) →
        ((d : Database) × IsDatabaseOf bytes d) ⊎ ((fault : DbcFault) × HasFault bytes fault) }
{
    one_scale_or_none();
    statements_are_the_longest_run();
    resolution_is_unique();
    trees_of_marks();
    reading_is_unique();
    verdict_is_unique();
}

/// All bytes have one database or one fault, and never both.
pub fn one_database_or_one_fault()
    ensures { Decides IsDatabaseOf HasFault }
{
    database_exists();
    database_is_unique();
}

/// The statements that are read of tokens are at their front one behind another, as many as there are, and no others are.
pub fn statements_are_the_longest_run()
    ensures longest { (text : List ℕ) (tokens : List Token) →
        Each (Parses text) (run_of (statement_at text) tokens).0 tokens (run_of (statement_at text) tokens).1 }
    ensures only { (text : List ℕ) (tokens : List Token) (xs ys : List AnyStatement) (rest left : List Token) →
        Each (Parses text) xs tokens rest → Each (Parses text) ys tokens left → (xs ≡ ys) × (rest ≡ left) }
{
    forms_are_statements();
    one_longest_run::<Statement>();
}

/// The names of a database's messages and signals are words of 1 to 128 bytes.
pub fn names_are_words()
    ensures { (bytes : List ℕ) (d : Database) → IsDatabaseOf bytes d → HasNames d }
{
    forms_are_statements();
    valid_keeps_rules();
}

/// The statement that a form finds at the front of the tokens is the one that is there, and what is there is found.
pub fn forms_are_statements()
    ensures { (text : List ℕ) (tokens : List Token) (statement : AnyStatement) (rest : List Token) →
        (statement_at text tokens ≡ Some (statement, rest)) ↔ Parses text statement tokens rest }
{
    forms_find_what_parses();
    one_longest_run::<SignalForm>();
    one_longest_run::<ValueText>();
    one_longest_run::<Range>();
    one_longest_run::<Token>();
}
