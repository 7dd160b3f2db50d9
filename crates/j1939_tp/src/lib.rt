//! The transport protocol of SAE J1939-21, as a passive listener follows it: messages of 9 to 1,785 bytes put
//! together from their packets, and each session that is broken off with its cause.
//!
//! It takes texts and causes from `bench_model`. The decoding of a log hands it the frames of a J1939 bus one
//! after another, and makes a record of each answer.
//!
//! Main theorem: whatever frames a listener has heard, `Listener::step` answers exactly what the protocol
//! gives at the next one, a whole message, a session cut with its cause, or nothing, unless memory runs out
//! at a frame that begins a session.
#![tactic(auto)]

mod laws;
mod listener;
mod out;
mod read;
mod session;
mod sessions;
mod tp_frame;

pub use laws::{a_session_is_open_since_its_last_opening, an_open_session_is_of_two_addresses};
pub use listener::Listener;
pub use out::TpOut;
pub use read::pgn_of;
