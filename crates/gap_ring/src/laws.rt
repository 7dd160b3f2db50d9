//! What holds of every list of offers to a ring, and of what was taken. Each function is a law: it does
//! nothing, and its clauses are proved of the definitions that a ring keeps to.

ghost use Rattle.std.specs.Prelude.{◌≡◌, ◌≢◌, ◌⊎◌, ◌+◌, ◌*◌, ◌<◌, ◌≤◌, ℕ, List, [], ◌∷◌, ◌++◌, length, map};
ghost use Rattle.std.specs.Prelude.{filter};
ghost use Rattle.std.specs.Prelude.{All, AllPairs, Contains, Option, Some, None};
ghost use Rattle.bench_model.specs.declared.reading.Reading.{Reading};
ghost use Rattle.bench_model.specs.declared.reading.Item.{Item};
ghost use Rattle.bench_model.specs.declared.reading.Item.TheVariants as item;
ghost use Rattle.gap_ring.specs.declared.entries.Outcome.{Outcome};
ghost use Rattle.gap_ring.specs.declared.entries.Outcome.TheVariants as outcome;
ghost use Rattle.gap_ring.specs.declared.entries.Offered.{Offered};
ghost use Rattle.gap_ring.specs.declared.entries.Taken.{Taken};
ghost use Rattle.gap_ring.specs.Offers.{AreOffers, Ends, IsAttached, IsDetached, IsHeadOf};
ghost use Rattle.gap_ring.specs.Offers.{is_put, put_of, turn_of, trailing, gap_of, lead, longer, missed_count};
ghost use Rattle.gap_ring.specs.Tiles.{numbers_read};
ghost use Rattle.gap_ring.specs.Groups.{Group, IsGroup, AreGroups};
ghost use Rattle.gap_ring.specs.Turns.{AreTaken, IsWholeTurn, IsPartOfTurn, items_taken, given, ending};

/// An offer ends in one way, by the words that it loaded.
pub fn an_offer_ends_in_one_way()
    ensures attached { (capacity attach head tail needed : ℕ) → IsAttached attach
        → IsHeadOf capacity tail head
        → (how : Outcome) × Ends capacity attach (Some head) tail needed how }
    ensures detached { (capacity attach tail needed : ℕ) → IsDetached attach
        → (how : Outcome) × Ends capacity attach None tail needed how }
    ensures one { (capacity attach : ℕ) (head : Option ℕ) (tail needed : ℕ) (a b : Outcome)
        → Ends capacity attach head tail needed a → Ends capacity attach head tail needed b → a ≡ b }
{}

/// What was put is made of groups, one a turn, in one way. Each begins with its Start and tiles the records
/// offered from the number of that Start on, and each number in its gaps is that of an offer refused in its
/// turn.
pub fn what_was_put_is_made_of_groups()
    ensures some { (bus capacity : ℕ) (offers : List Offered) → AreOffers bus capacity offers
        → (groups : List Group) × AreGroups bus offers (put_of offers) groups }
    ensures one { (bus : ℕ) (offers : List Offered) (items : List Item) (a b : List Group)
        → AreGroups bus offers items a → AreGroups bus offers items b → a ≡ b }
    ensures turns { (attach : ℕ) (offers : List Offered) (g : Group) → IsGroup offers g
        → All (λ o. o.attach ≤ attach) offers → g.turn ≤ attach }
{}

/// A Start goes before a record only in a later turn than that of the last record that was put. It has the
/// number of its record.
pub fn a_start_begins_a_later_turn()
    ensures { (offers : List Offered) (reading : Reading) (attach bus number turn : ℕ)
        → All (λ o. o.attach ≤ attach) offers
        → lead offers reading attach ≡ item.Start bus number turn ∷ []
        → (turn ≡ attach) × (turn_of offers < turn) × (number ≡ reading.number) }
{}

/// The records that were put are those of the offers that were put, in order. So their numbers rise.
pub fn numbers_of_records_rise()
    ensures records { (offers : List Offered)
        → numbers_read (put_of offers) ≡ map (λ o. o.reading.number) (filter is_put offers) }
    ensures rise { (bus capacity : ℕ) (offers : List Offered) → AreOffers bus capacity offers
        → AllPairs (λ a b. a < b) (numbers_read (put_of offers))
        × All (λ n. n < length offers) (numbers_read (put_of offers)) }
{}

/// The first turn begins at the first record: in a ring of two slots or more the first offer is put with its
/// Start, where a taker is attached from the beginning.
pub fn the_first_turn_begins_at_the_first_record()
    ensures put { (bus capacity : ℕ) (o : Offered) (os : List Offered) → 2 ≤ capacity
        → AreOffers bus capacity (o ∷ os) → o.attach ≡ 1
        → (rest : List Item) × (put_of (o ∷ os) ≡ item.Start bus 0 1 ∷ item.Reading o.reading ∷ rest) }
    ensures number { (bus capacity : ℕ) (offers : List Offered) (groups : List Group) (g : Group)
        → 2 ≤ capacity
        → AreOffers bus capacity offers → AreGroups bus offers (put_of offers) groups → Contains groups g
        → g.turn ≡ 1 → g.number ≡ 0 }
{}

/// Where a taker has taken all that was put, in a turn which no offer's word is above: if a record was put in
/// this turn, what was given in it is a whole group, and the group and the gap at the end tile the records
/// offered from its Start to the last; if none was put in it, nothing was given and there is no gap.
pub fn a_turn_to_the_end_is_whole()
    ensures started { (bus capacity turn : ℕ) (offers : List Offered) (taken : List Taken)
        → AreOffers bus capacity offers → IsAttached turn → AreTaken turn taken
        → All (λ o. o.attach ≤ turn) offers
        → items_taken taken ≡ put_of offers → turn_of offers ≡ turn
        → (g : Group) × (g.turn ≡ turn) × IsWholeTurn bus offers (given taken turn) (ending turn offers) g }
    ensures unstarted { (bus capacity turn : ℕ) (offers : List Offered) (taken : List Taken)
        → AreOffers bus capacity offers → IsAttached turn → AreTaken turn taken
        → All (λ o. o.attach ≤ turn) offers
        → items_taken taken ≡ put_of offers → turn_of offers ≢ turn
        → (given taken turn ≡ []) × (ending turn offers ≡ None) }
{}

/// What was given in a turn that may have been broken off: where what was taken is a prefix of what was put,
/// it is nothing, or the Start of that turn's group and what follows it up to some item, which tiles the
/// records offered from that Start on.
pub fn what_was_given_is_a_prefix_of_its_group()
    ensures { (bus attach turn : ℕ) (offers : List Offered) (taken : List Taken) (waiting : List Item)
        (groups : List Group)
        → AreTaken attach taken → AreGroups bus offers (put_of offers) groups
        → put_of offers ≡ items_taken taken ++ waiting
        → (given taken turn ≡ [])
        ⊎ ((g : Group) × Contains groups g × IsPartOfTurn bus offers turn (given taken turn) g) }
{}

/// A refusal is counted once: where its turn's Start was put, the trailing gap is this record longer, and
/// else it is as it was. A record that found no taker attached is not counted. Neither puts anything or
/// changes the turn, and a record that is put ends the gap.
pub fn a_refusal_is_counted_once()
    ensures counted { (offers : List Offered) (o : Offered) → o.outcome ≡ outcome.Refused
        → o.attach ≡ turn_of offers
        → (trailing (offers ++ o ∷ []) ≡ trailing offers ++ o ∷ [])
        × (gap_of (trailing (offers ++ o ∷ [])) ≡ Some (longer (gap_of (trailing offers)) o.reading))
        × (missed_count (gap_of (trailing (offers ++ o ∷ [])))
        ≡ missed_count (gap_of (trailing offers)) + 1) }
    ensures uncounted { (offers : List Offered) (o : Offered) → o.outcome ≡ outcome.Refused
        → o.attach ≢ turn_of offers
        → trailing (offers ++ o ∷ []) ≡ trailing offers }
    ensures away { (offers : List Offered) (o : Offered) → o.outcome ≡ outcome.Away
        → trailing (offers ++ o ∷ []) ≡ trailing offers }
    ensures nothing_else { (offers : List Offered) (o : Offered) → o.outcome ≢ outcome.Put
        → (put_of (offers ++ o ∷ []) ≡ put_of offers) × (turn_of (offers ++ o ∷ []) ≡ turn_of offers) }
    ensures put { (offers : List Offered) (o : Offered) → o.outcome ≡ outcome.Put
        → trailing (offers ++ o ∷ []) ≡ [] }
{}

/// What was given in a turn does not change by what is taken under other attach words.
pub fn other_turns_give_nothing_to_this_one()
    ensures { (taken more : List Taken) (turn : ℕ) → All (λ t. t.attach ≢ turn) more
        → given (taken ++ more) turn ≡ given taken turn }
{}
