//! Rings that state their gaps: a ring lies between the thread that decodes a bus and a thread that serves a
//! subscriber. A slow subscriber misses records without holding up the bus, and the ring counts exactly what it
//! missed.
//!
//! It takes records and items from `bench_model` and builds on the kit's `atomic_table`: the items lie in the
//! slots of a table, beside the words head, tail, end and attach and three gap words. The decoding of a bus
//! will offer its records to rings, and the sessions of subscribers will take from them.
//!
//! Main theorem: in every interleaving, what a taker is given in a turn is a stretch of the records offered
//! from its Start on, in order, in which each record is as it was offered or is counted by a gap, and
//! each record that a gap counts was refused in that turn since the ring was full.
#![tactic(auto)]

mod answers;
mod count;
mod entries;
mod laws;
mod met;
mod offering;
mod pair;
mod plays;
mod progress;
mod putter;
mod steps;
mod taker;
mod taking;
mod view;

pub use answers::{Offer, Take};
pub use count::Count;
pub use entries::{Offered, Outcome, Taken};
pub use laws::{
    a_refusal_is_counted_once, a_start_begins_a_later_turn, a_turn_to_the_end_is_whole,
    an_offer_ends_in_one_way, numbers_of_records_rise, other_turns_give_nothing_to_this_one,
    the_first_turn_begins_at_the_first_record, what_was_given_is_a_prefix_of_its_group,
    what_was_put_is_made_of_groups,
};
pub use met::{Met, meet};
pub use pair::ring;
pub use progress::Progress;
pub use putter::Putter;
pub use taker::Taker;
pub use view::{Did, GapWords, Gaps, Putting, Taking, View};
