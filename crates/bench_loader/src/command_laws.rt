//! Laws of commands. Each function is a law: it does nothing, and its clauses are proved of the definitions.

ghost use Rattle.std.specs.Prelude.{◌≡◌, ◌⊎◌, ◌++◌, ◌∷◌, [], ◌+◌, ◌-◌, ◌^◌, ◌<◌, ◌≤◌, ℕ, List, Some, length, slice_get};
ghost use Rattle.std.specs.List.{AllZip};
ghost use Rattle.bench_model.specs.declared.database.Bench.{Bench};
ghost use Rattle.image_words.specs.Image.{Encodes};
ghost use Rattle.region_store.specs.Images.{names_of};
ghost use Rattle.bench_inputs.specs.Asking.{Files, LibraryState};
ghost use Rattle.bench_loader.specs.declared.reply.Reply.{Reply};
ghost use Rattle.bench_loader.specs.Due.{Limits, LacksFile, Due};
ghost use Rattle.bench_loader.specs.Commands.{LoaderState, images_in, version_in, Answers, IsFromOutside};
ghost use Rattle.bench_loader.specs.Runs.{Answered, Moment, IsAnswered, Runs, KeepsLibraryOver, Published};
ghost use Rattle.bench_loader.specs.Runs.{open_replies, read_replies};

use crate::one_judgement_of_a_file;
use bench_inputs::one_reading_of_a_database;

/// One reply is due to a line, where the library's files are known and all that the line names are there; and that one is
/// given, unless something of the outside fails, each region may be held, or memory runs out.
pub fn one_due_reply()
    ensures one { (limits : Limits) (files : Files) (bench : Bench) (version : ℕ) (line : List ℕ) (r q : Reply)
        → Due limits (Some files) bench version line r → Due limits (Some files) bench version line q → r ≡ q }
    ensures given { (limits : Limits) (files : Files) (library now : LibraryState) (before after : LoaderState) (line : List ℕ)
        (reply due : Reply) → Answers limits library before line reply now after → library.files ≡ Some files
        → Due limits (Some files) before.bench (version_in before) line due → (reply ≡ due) ⊎ IsFromOutside reply }
    ensures some { (limits : Limits) (files : Files) (bench : Bench) (version : ℕ) (line : List ℕ)
        → ((r : Reply) × Due limits (Some files) bench version line r) ⊎ LacksFile files bench line }
    ensures never_both { (limits : Limits) (files : Files) (bench : Bench) (version : ℕ) (line : List ℕ) (r : Reply)
        → LacksFile files bench line → Due limits (Some files) bench version line r → ⊥ }
{
    one_reading_of_a_database();
    one_judgement_of_a_file();
}

/// Runs of commands join, and a further command makes them longer.
pub fn runs_join()
    ensures join { (limits : Limits) (a b c : Moment) (log more : List Answered) → Runs limits a log b → Runs limits b more c
        → Runs limits a (log ++ more) c }
    ensures one_more { (limits : Limits) (a b c : Moment) (log : List Answered) (entry : Answered) → Runs limits a log b
        → IsAnswered limits b entry c → Runs limits a (log ++ entry ∷ []) c }
{}

/// Commands leave the library's files as they are and let no count fall. Its number of strays rises only where a file that a
/// line names is not there, and the buses keep their names and kinds.
pub fn runs_keep_the_library()
    ensures library { (limits : Limits) (before now : Moment) (log : List Answered) → Runs limits before log now
        → KeepsLibraryOver before.loader.bench log before.library now.library }
    ensures buses { (limits : Limits) (before now : Moment) (log : List Answered) → Runs limits before log now
        → names_of now.loader.bench ≡ names_of before.loader.bench }
{}

/// The images that commands publish behind a first one encode, one by one, the benches that the accepted commands make:
/// one for each version, of which the loader's is the last.
pub fn images_are_published()
    ensures { (limits : Limits) (before now : Moment) (log : List Answered) (first : List ℕ) → Runs limits before log now
        → length (images_in before.loader) ≡ version_in before.loader + 1 → images_in before.loader ≡ first ∷ []
        → Encodes first before.loader.bench
        → (benches : List Bench) × (Published before.loader.bench before.library.files log benches
        × AllZip Encodes (images_in now.loader) benches
        × (length benches ≡ version_in now.loader + 1)
        × (slice_get benches (version_in now.loader) ≡ Some now.loader.bench)) }
{}

/// Where the library's files are known, commands publish one list of benches.
pub fn one_list_is_published()
    ensures { (files : Files) (start : Bench) (log : List Answered) (a b : List Bench)
        → Published start (Some files) log a → Published start (Some files) log b → a ≡ b }
{
    one_reading_of_a_database();
    one_judgement_of_a_file();
}

/// Where the counts of faults end below their greatest number, each reply that a file was not opened or not read has a
/// fault of its own.
pub fn replies_are_counted()
    ensures opens { (limits : Limits) (before now : Moment) (log : List Answered) → Runs limits before log now
        → now.library.open_faults < 2 ^ 64 - 1 → before.library.open_faults + open_replies log ≤ now.library.open_faults }
    ensures reads { (limits : Limits) (before now : Moment) (log : List Answered) → Runs limits before log now
        → now.library.more_faults < 2 ^ 64 - 1 → before.library.more_faults + read_replies log ≤ now.library.more_faults }
{}
