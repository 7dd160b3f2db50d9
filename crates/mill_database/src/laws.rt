//! Laws about the generated text. They have no code of their own, but rest on laws of the crates below.

ghost use Rattle.dbc_grammar.specs.Contract.{IsDatabaseOf};
ghost use Rattle.mill_database.specs.GeneratedText.{generated_text};
ghost use Rattle.mill_database.specs.GeneratedDatabase.{generated_database};

use bench_model::valid_keeps_rules;
use dbc_grammar::forms_are_statements;
use multiplex_tree::signals_without_parents;

/// The generated text is a list of whole statements, whose database is valid and the one that is written out.
pub fn the_generated_text_is_whole()
    ensures { IsDatabaseOf generated_text generated_database }
{
    forms_are_statements();
    signals_without_parents();
    valid_keeps_rules();
}
