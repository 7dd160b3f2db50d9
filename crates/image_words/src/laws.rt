//! Laws of images and of what is known of them. They have no code.

ghost use Rattle.std.specs.Prelude.{◌≡◌, ℕ, ℤ, List, Option, Some, slice_get};
ghost use Rattle.bench_model.specs.declared.database.Signal.{Signal};
ghost use Rattle.bench_model.specs.declared.database.Message.{Message};
ghost use Rattle.bench_model.specs.declared.database.Bus.{Bus};
ghost use Rattle.bench_model.specs.declared.database.Bench.{Bench};
ghost use Rattle.bench_model.specs.declared.reading.Ask.{Ask};
ghost use Rattle.bench_model.specs.declared.reading.Plain.{Plain};
ghost use Rattle.bench_model.specs.Raw.{raw_value};
ghost use Rattle.bench_model.specs.Meaning.{bench_meaning};
ghost use Rattle.bench_model.specs.ValidBench.{IsValidBench};
ghost use Rattle.image_words.specs.Image.{HasSignal, HasDecodable, Encodes};
ghost use Rattle.image_words.specs.Knowledge.{Knowledge, Fits, SomeFits, Narrows, Holds};
ghost use Rattle.image_words.specs.Whole.{all_of, signal_place};

use bench_model::valid_is_decodable;

/// A list of words encodes at most one bench.
pub fn one_encoded()
    ensures { (image : List ℕ) (a b : Bench) → Encodes image a → Encodes image b → a ≡ b }
{}

/// While words are read, what fits later fitted earlier; and one narrowing follows another.
pub fn knowledge_narrows()
    ensures earlier { (old new : Knowledge) (image : List ℕ) (bench : Bench) → Narrows old new
        → Fits new image bench → Fits old image bench }
    ensures same { (k : Knowledge) → Narrows k k }
    ensures chain { (a b c : Knowledge) → Narrows a b → Narrows b c → Narrows a c }
{}

/// Two lists that both have the known words, and fit else, have the same meaning wherever an answer is that
/// of each list that fits: words that were never read do not count. The same of a signal's raw value.
pub fn known_words_decide()
    ensures plain { (k : Knowledge) (answer : Option Plain) (bus : ℕ) (ask : Ask) (bytes : List ℕ)
        (a b : List ℕ) (x y : Bench)
        → Holds k (λ image bench. answer ≡ bench_meaning bench bus ask bytes)
        → Fits k a x → Fits k b y → bench_meaning x bus ask bytes ≡ bench_meaning y bus ask bytes }
    ensures raw { (k : Knowledge) (answer : Option ℤ) (row : ℕ) (bytes : List ℕ)
        (a b : List ℕ) (x y : Bench) (s t : Signal)
        → Holds k (λ image bench. (u : Signal) → HasSignal image row u → answer ≡ raw_value u bytes)
        → Fits k a x → Fits k b y → HasSignal a row s → HasSignal b row t
        → raw_value s bytes ≡ raw_value t bytes }
{}

/// Where all words of a list are known, as those of a vector are, the list fits with the valid bench that it
/// encodes, and no other list does.
pub fn whole_list_fits()
    ensures fits { (image : List ℕ) (bench : Bench) → Encodes image bench → IsValidBench bench
        → Fits (all_of image) image bench }
    ensures some { (image : List ℕ) (bench : Bench) → Encodes image bench → IsValidBench bench
        → SomeFits (all_of image) }
    ensures only { (image other : List ℕ) (bench : Bench) → Fits (all_of image) other bench → other ≡ image }
{}

/// Each signal of a valid bench has its row in each list that encodes the bench, at the place that the rows of
/// its bus and its message say, and has a raw value by `raw_of`.
pub fn signals_have_rows()
    ensures { (image : List ℕ) (bench : Bench) (i j k : ℕ) (bus : Bus) (message : Message) (s : Signal)
        → Encodes image bench → IsValidBench bench → slice_get bench.buses i ≡ Some bus
        → slice_get bus.database.messages j ≡ Some message → slice_get message.signals k ≡ Some s
        → HasDecodable image (signal_place image i j k) s }
{
    valid_is_decodable();
}
