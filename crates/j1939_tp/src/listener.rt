//! The listener.

ghost use Rattle.std.specs.Prelude.{◌≡◌, ◌++◌, ◌∷◌, [], List, IfOk, OnOk, OnErr};
ghost use Rattle.j1939_tp.specs.Frames.{Frame, frame, role, opens};
ghost use Rattle.j1939_tp.specs.OpenSessions.{answer_at};
ghost use Rattle.j1939_tp.specs.Keeping.{HasHeard};

use crate::TpOut;
use crate::read::{destination_of, read_frame, source_of};
use crate::sessions::{Sessions, hear};
use std::alloc::{AllocError, Global};
use std::marker::Model;

/// A listener that has heard some frames of a bus. Contracts see what it keeps of the open sessions, and
/// speak of the frames by `HasHeard`.
#[derive(Drop)]
pub struct Listener {
    alloc: Global,
    sessions: Sessions,
}

impl Model for Listener {
    ghost use Rattle.j1939_tp.specs.Keeping.{Entries};

    ghost Value = { Entries };

    ghost view = { λ l. l.sessions.entries };
}

impl Listener {
    /// A listener that has heard nothing.
    pub fn new(alloc: Global) -> Listener
        ensures { HasHeard result [] }
    {
        Listener {
            alloc,
            sessions: Sessions::new(alloc),
        }
    }

    /// Hears a frame with a 29-bit identifier, and says what comes of it.
    pub fn step(&mut self, micros: u64, id: u32, bytes: &[u8]) -> Result<TpOut, AllocError>
        // Whatever frames were heard before, the answer is the protocol's, and this frame is heard, too.
        ensures answer { (before : List Frame) → HasHeard self.old before
            → IfOk result (λ out. out ≡ answer_at before (frame micros id bytes.now)) }
        ensures heard { (before : List Frame) → HasHeard self.old before
            → OnOk result (HasHeard self.new (before ++ frame micros id bytes.now ∷ [])) }

        // Memory runs out only where a session begins, and then all is as before.
        ensures memory { OnErr result (role (frame micros id bytes.now) ≡ opens) }
        ensures unchanged { OnErr result (self.new ≡ self.old) }
    {
        let Some(frame) = read_frame(id, bytes) else {
            return Ok(TpOut::Nothing);
        };
        let pair = (source_of(id), destination_of(id));
        hear(self.alloc, &mut self.sessions, frame, pair, micros)
    }
}
