//! What a subscriber wants, and the text that it is sent.
//!
//! `wants_before_go` finds where a subscriber's wants end, `Wants::read` reads them, and `append` and `print`
//! write the items that they cover, as the tool prints them and a server sends them. It builds on `bench_model`
//! for the items, on `exact_scale`, `byte_forms` and `text_words` for numbers, lines and words, and on `port_io`
//! for the sink.
//!
//! Main theorem: unless memory runs out, `append` adds exactly the text of the item under the wants, and
//! `Wants::read` gives exactly the wants of the lines, or names the first line that is faulty.
#![tactic(auto)]

mod before_go;
mod bytes;
mod fault;
mod index;
mod item;
mod laws;
mod line;
mod message_parts;
mod printing;
mod read;
mod record;
mod signal;
mod want;
mod wants;

pub use before_go::{Asking, BEFORE_GO_LIMIT, wants_before_go};
pub use fault::{PrintRefused, WantsFault};
pub use item::append;
pub use laws::{
    a_prefix_of_items_is_whole_but_for_the_last, each_line_is_of_a_wanted_bus,
    the_first_faulty_line_decides, the_part_of_a_bus_is_the_text_of_its_items,
    the_parts_of_a_record_are_its_text, the_rest_behind_the_header_is_one,
    the_wants_before_go_are_what_is_asked, the_wants_end_at_the_first_go,
};
pub use message_parts::{RecordPlace, WantedSignals, append_message, append_wanted_signal};
pub use printing::{header, print};
pub use signal::SignalParts;
pub use wants::Wants;
