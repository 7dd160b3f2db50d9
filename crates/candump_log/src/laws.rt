//! Laws about the definitions that the contracts cite. They have no code of their own, but rest on laws of byte_forms.
ghost use Rattle.std.specs.Prelude.{◌≡◌, ◌⊎◌, ◌++◌, ◌↔◌, List, [], ◌∷◌, ℕ, true, false, Some, None, Option};
ghost use Rattle.std.specs.Prelude.{IfSome};
ghost use Rattle.std.specs.Prelude.{Result, Ok, Err};
ghost use Rattle.std.specs.List.{AllByRecursion};
ghost use Rattle.byte_forms.specs.Lines.{all_lines};
ghost use Rattle.candump_log.specs.declared.log_line.LogLine.{LogLine as Line};
ghost use Rattle.candump_log.specs.declared.log_line.LogLine.TheVariants.{Bad};
ghost use Rattle.candump_log.specs.declared.log_line.Span.{Span as Place};
ghost use Rattle.candump_log.specs.declared.place.Routed.{Routed as Found};
ghost use Rattle.candump_log.specs.declared.place.LinesRefused.{LinesRefused as Refused};
ghost use Rattle.candump_log.specs.declared.place.LinesRefused.TheVariants.{TooLong};
ghost use Rattle.candump_log.specs.Line.{IsLine, IsInterface, KeepsLimits};
ghost use Rattle.candump_log.specs.LineOf.{line_of, interface_of};
ghost use Rattle.candump_log.specs.Routing.{place_of, HasInterface, IsFirstName, IsNoName};
ghost use Rattle.candump_log.specs.LogLines.{whole_lines, last_line, with_feeds, NoFeed};
ghost use Rattle.candump_log.specs.LinesState.{LinesState as State, fresh, log_of};
ghost use Rattle.candump_log.specs.NextLine.{NextLine, NextOn, HasEnded, HasStopped};
ghost use Rattle.candump_log.specs.NextLine.{IsAtEnd, IsAtLimit, unrouted};
ghost use Rattle.candump_log.specs.Reads.{Reads};

use byte_forms::{a_number_is_that_of_its_digits, pieces_are_what_a_text_begins_with};

/// Each text says one thing as a line of a log, within its limits, and its interface is at one place, at
/// none in a bad line: what is read piece by piece.
pub fn one_line()
    ensures some { (text : List ℕ) → IsLine text (line_of text) }
    ensures one { (text : List ℕ) (line : Line) → IsLine text line → line_of text ≡ line }
    ensures limits { (text : List ℕ) → KeepsLimits (line_of text) }
    ensures interface { (text : List ℕ) (place : Place) → (interface_of text ≡ Some place)
        ↔ IsInterface text place }
    ensures no_interface { (text : List ℕ) → (interface_of text ≡ None) ↔ IsLine text Bad }
{
    pieces_are_what_a_text_begins_with();
    a_number_is_that_of_its_digits();
}

/// The place of a line among names is that of the first name equal to its interface, and there is none exactly
/// for a bad line and where no name is equal.
pub fn place_among_names()
    ensures some { (names : List (List ℕ)) (text : List ℕ) (place : ℕ) → (place_of names text ≡ Some place)
        ↔ ((word : List ℕ) × HasInterface text word × IsFirstName names word place) }
    ensures none { (names : List (List ℕ)) (text : List ℕ) → (place_of names text ≡ None)
        ↔ (IsLine text Bad ⊎ ((word : List ℕ) × HasInterface text word × IsNoName names word)) }
{
    one_line();
}

/// Bytes are their whole lines, each with its line feed, and a rest without one, which is the last of all
/// lines where it is not empty.
pub fn lines_of_bytes()
    ensures parted { (bytes : List ℕ) → (rest : List ℕ) × NoFeed rest
        × (bytes ≡ with_feeds (whole_lines bytes) ++ rest)
        × (all_lines bytes ≡ whole_lines bytes ++ last_line rest) }
    ensures plain { (bytes : List ℕ) → AllByRecursion NoFeed (whole_lines bytes) }
{}

/// A call with names is the call without, so what holds of its answers holds of both.
pub fn next_with_names()
    ensures same { (names : List (List ℕ)) (before now : State) (answer : Result (Option Found) Refused)
        → NextOn names before answer now → NextLine before (unrouted answer) now }
    ensures none { (before now : State) (answer : Result (Option Line) Refused)
        → NextLine before answer now → (answer ≡ Ok None) ↔ IsAtEnd before now }
    ensures too_long { (before now : State) (answer : Result (Option Line) Refused)
        → NextLine before answer now → (answer ≡ Err TooLong) ↔ IsAtLimit before now }
    ensures ended { (before now : State) (answer : Result (Option Line) Refused)
        → NextLine before answer now → before.ready ≡ false → before.source.ended ≡ true → answer ≡ Ok None }
{}

/// What a run of calls has read of a log: each line that comes is the next of its texts, at the end they are the
/// texts of all its lines, where it stopped those of the whole lines taken, and at any moment its first.
pub fn lines_read()
    ensures made { (made : State) → made ≡ fresh made.source made.other → log_of made ≡ made.source.left
        → Reads made made [] }
    ensures line { (made before now : State) (read : List (List ℕ)) (line : Line) → Reads made before read
        → NextLine before (Ok (Some line)) now
        → (text : List ℕ) × (line ≡ line_of text) × Reads made now (read ++ text ∷ []) }
    ensures end { (made before now : State) (read : List (List ℕ)) → Reads made before read
        → NextLine before (Ok None) now
        → Reads made now read × HasEnded now × IfSome made.source.left (λ bytes. read ≡ all_lines bytes) }
    ensures fault { (made before now : State) (read : List (List ℕ)) (why : Refused) → Reads made before read
        → NextLine before (Err why) now
        → (r : Reads made now read) × HasStopped now
        × IfSome made.source.left (λ _. read ≡ whole_lines r.took) }
    ensures moment { (made now : State) (read : List (List ℕ)) → Reads made now read
        → (unread : List (List ℕ)) × IfSome made.source.left (λ bytes. read ++ unread ≡ all_lines bytes) }
{}
