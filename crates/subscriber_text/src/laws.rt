//! Laws of the text of items. Each function is a law: it does nothing, and its clauses are proved of the
//! definitions.

ghost use Rattle.std.specs.Prelude.{◌≡◌, ◌<◌, ◌≤◌, ◌↔◌, [], ◌∷◌, ◌++◌, ℕ, Bool, List, length, map, take, true, false, Some, None, Ok, Err};
ghost use Rattle.std.specs.List.{list_all, list_any};
ghost use Rattle.bench_model.specs.declared.reading.SignalValue.{SignalValue};
ghost use Rattle.bench_model.specs.declared.reading.Item.{Item};
ghost use Rattle.bench_model.specs.declared.reading.Item.TheVariants as Items;
ghost use Rattle.byte_forms.specs.Lines.{all_lines};
ghost use Rattle.subscriber_text.specs.Wants.{WantList};
ghost use Rattle.subscriber_text.specs.WantLines.{IsWant, line_words, want_line, asked};
ghost use Rattle.subscriber_text.specs.FirstFault.{IsFirstFault, behind_format};
ghost use Rattle.subscriber_text.specs.BeforeGo.{is_go, before_go, bytes_of, wants_before_go, Refused, Unfinished, Unasked, request_of_wants, request};
ghost use Rattle.subscriber_text.specs.ItemText.{bus_name, item_text, items_text};
ghost use Rattle.subscriber_text.specs.MessageParts.{message_record, first_line, signals_wanted, covered_lines};
ghost use Rattle.subscriber_text.specs.declared.message_parts.RecordPlace.{RecordPlace};
ghost use Rattle.subscriber_text.specs.Parts.{fed_lines, without_feed, AreBusNames, is_plainly_named, part_of, items_of};
ghost use Rattle.subscriber_text.specs.Parts.{IsOfWantedBuses, IsCutText, IsBehindHeader};

use crate::{Asking, WantsFault};

/// In a text of items of several buses the part of a bus is the text of its items: where the names of the buses
/// are different words, and no line feed is in the names of messages and signals.
pub fn the_part_of_a_bus_is_the_text_of_its_items()
    ensures { (wants : WantList) (items : List Item) (bus : ℕ) → AreBusNames wants.names
        → bus < length wants.names
        → list_all is_plainly_named items ≡ true
        → part_of (items_text wants items) (bus_name wants bus) ≡ items_text wants (items_of items bus) }
{}

/// The first line of a message's record and the lines of its signals one after another, each where it is wanted, are
/// the text of the record.
pub fn the_parts_of_a_record_are_its_text()
    ensures { (wants : WantList) (place : RecordPlace) (message : List ℕ) (signals : List SignalValue)
        → first_line wants (message_record place message [])
        ++ covered_lines wants place.bus message (signals_wanted wants place.bus message) signals
        ≡ item_text wants (Items.Reading (message_record place message signals)) }
{}

/// Each line of a text of items is in the part of a wanted bus: where the names of the buses are words, and
/// no line feed is in the names of messages and signals.
pub fn each_line_is_of_a_wanted_bus()
    ensures { (wants : WantList) (items : List Item) → AreBusNames wants.names
        → list_all is_plainly_named items ≡ true
        → IsOfWantedBuses wants (items_text wants items) }
{}

/// A prefix of a text of items is whole items and a prefix of the next.
pub fn a_prefix_of_items_is_whole_but_for_the_last()
    ensures { (wants : WantList) (items : List Item) (sent rest : List ℕ)
        → items_text wants items ≡ sent ++ rest
        → IsCutText wants items sent }
{}

/// The lines of a text are its bytes; and the wants of a subscriber are the lines before the first `GO`, none of
/// which is that line.
pub fn the_wants_end_at_the_first_go()
    ensures bytes { (bytes : List ℕ) → bytes_of (fed_lines bytes) ≡ bytes }
    ensures go { (last : Bool) (lines before : List (List ℕ)) → before_go last lines ≡ Some before
        → (line : List ℕ) × (after : List (List ℕ)) × (lines ≡ before ++ line ∷ after)
        × (is_go last line ≡ true) × (list_any (is_go last) before ≡ false) }
    ensures none { (last : Bool) (lines : List (List ℕ)) → before_go last lines ≡ None
        → list_any (is_go last) lines ≡ false }
{}

/// What a subscriber asks, as far as the bytes read so far say, is what `wants_before_go` answers and
/// `Wants::read` reads of the bytes before `GO`: wants or the first faulty line among them, the line of the last
/// byte that may come, an end of the input, or more bytes to come. Both count the lines of a text alike, with or
/// without their line feeds.
pub fn the_wants_before_go_are_what_is_asked()
    ensures lines { (bytes : List ℕ) → all_lines bytes ≡ map without_feed (fed_lines bytes) }
    ensures go { (names : List (List ℕ)) (bytes : List ℕ) (ended : Bool) (n : ℕ)
        → wants_before_go bytes ended ≡ Asking.Go n
        → (n ≤ length bytes) × (request names bytes ended ≡ request_of_wants (asked names (take n bytes))) }
    ensures long { (names : List (List ℕ)) (bytes : List ℕ) (ended : Bool) (n : ℕ)
        → wants_before_go bytes ended ≡ Asking.Long n
        → request names bytes ended ≡ Refused (WantsFault.Line n) }
    ensures gone { (names : List (List ℕ)) (bytes : List ℕ) (ended : Bool)
        → wants_before_go bytes ended ≡ Asking.Gone → request names bytes ended ≡ Unasked }
    ensures open { (names : List (List ℕ)) (bytes : List ℕ) (ended : Bool)
        → wants_before_go bytes ended ≡ Asking.Open → request names bytes ended ≡ Unfinished }
{}

/// A text of wants is refused exactly for its first faulty line: those before it are wants, the first of them
/// maybe the format. Without a fault each line is the want of its place.
pub fn the_first_faulty_line_decides()
    ensures fault { (names : List (List ℕ)) (text : List ℕ) (fault : WantsFault)
        → (asked names text ≡ Err fault) ↔ IsFirstFault names (all_lines text) fault }
    ensures wants { (names : List (List ℕ)) (text : List ℕ) (w : WantList) → asked names text ≡ Ok w
        → map (λ line. want_line names (line_words line)) (behind_format (all_lines text)) ≡ map IsWant w.wants }
{}

/// A text has one rest behind the header, if it begins with that.
pub fn the_rest_behind_the_header_is_one()
    ensures { (wants : WantList) (sent rest other : List ℕ) → IsBehindHeader wants sent rest
        → IsBehindHeader wants sent other → rest ≡ other }
{}
