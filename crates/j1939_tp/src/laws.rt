//! What holds of the sessions after every list of frames. Each function is a law: it does nothing, and its
//! clause is proved of the definitions that `Listener::step` keeps to.

ghost use Rattle.std.specs.Prelude.{◌≡◌, ◌↔◌, ◌<◌, ℕ, List, Some};
ghost use Rattle.j1939_tp.specs.Frames.{Frame};
ghost use Rattle.j1939_tp.specs.Session.{Session};
ghost use Rattle.j1939_tp.specs.OpenSessions.{Pair, open_after};
ghost use Rattle.j1939_tp.specs.Places.{IsOpenSince};

/// A session is open for a pair exactly where the last frame that opens the pair began it and no frame since
/// ended it; the frames that acted on it are those since then which do.
pub fn a_session_is_open_since_its_last_opening()
    ensures { (frames : List Frame) (p : Pair) (s : Session)
        → (open_after frames p ≡ Some s) ↔ ((i : ℕ) × IsOpenSince p frames i s) }
{}

/// Sessions are open for pairs of addresses of a byte alone, so there are 65,536 at most.
pub fn an_open_session_is_of_two_addresses()
    ensures { (frames : List Frame) (p : Pair) (s : Session) → open_after frames p ≡ Some s
        → (p.0 < 256) × (p.1 < 256) }
{}
