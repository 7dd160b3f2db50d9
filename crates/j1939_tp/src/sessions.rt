//! The sessions that are kept, one for each pair, and what a frame of each kind does to them: a function for
//! each row of the protocol's table.

ghost use Rattle.std.specs.Prelude.{◌≡◌, List, Some, IfOk, OnOk, OnErr};
ghost use Rattle.j1939_tp.specs.Frames.{Frame, role};
ghost use Rattle.j1939_tp.specs.OpenSessions.{pair_of};
ghost use Rattle.j1939_tp.specs.Keeping.{HasHeard, Hears, Changes, Meets, MeetsNamed, kept_of, aborted_pair};
ghost use Rattle.j1939_tp.specs.Keeping.{keeps_group as keeps, fate_of_end, fate_of_renewal, fate_of_packet};
ghost use Rattle.j1939_tp.specs.Keeping.{fate_of_cut, fate_in_time_of_renewal, fate_of_last};
ghost use Rattle.bench_model.specs.declared.reading.CutCause.TheVariants.{Abort};
ghost use Rattle.j1939_tp.specs.FrameReading.{fresh, answer_to_opening, IsReading, IsOpening};

use crate::TpOut;
use crate::session::{Progress, Session};
use crate::tp_frame::{Opening, Packet, TpFrame};
use bench_model::CutCause;
use std::alloc::{AllocError, Global};
use std::collections::BTreeMap;

/// A sender and a receiver.
pub(crate) type Pair = (u8, u8);

pub(crate) type Sessions = BTreeMap<Pair, Session>;

/// A session of the pair begins. It takes the place of one that is open, which is then cut.
pub(crate) fn open(
    alloc: Global,
    sessions: &mut Sessions,
    pair: Pair,
    micros: u64,
    opening: &Opening,
) -> Result<TpOut, AllocError>
    ensures changed { OnOk result
        (Changes sessions.old.entries sessions.new.entries pair (Some (fresh micros opening.now))) }
    ensures answered { IfOk result
        (λ out. out ≡ answer_to_opening pair micros (kept_of sessions.old.entries pair)) }
    ensures err { OnErr result (sessions.new.entries ≡ sessions.old.entries) }
{
    let session = Session::open(alloc, micros, opening)?;
    Ok(match sessions.insert(pair, session)? {
        None => TpOut::Nothing,
        Some(earlier) => TpOut::Cut {
            pgn: earlier.pgn(),
            sa: pair.0,
            da: pair.1,
            cause: earlier.cause_of_end(micros, CutCause::Again),
        },
    })
}

/// The pair's session is cut.
fn end(sessions: &mut Sessions, pair: Pair, cause: CutCause) -> TpOut
    ensures { Meets sessions.old.entries sessions.new.entries pair (fate_of_cut cause) result }
{
    match sessions.remove(&pair) {
        Some(session) => TpOut::Cut {
            pgn: session.pgn(),
            sa: pair.0,
            da: pair.1,
            cause,
        },
        None => TpOut::Nothing,
    }
}

/// The pair's session is whole with this packet.
fn complete(sessions: &mut Sessions, pair: Pair, packet: &Packet<'_>) -> TpOut
    ensures { Meets sessions.old.entries sessions.new.entries pair
        (fate_of_last packet.now.carried.now) result }
{
    match sessions.remove(&pair) {
        Some(session) => TpOut::Whole {
            pgn: session.pgn(),
            sa: pair.0,
            da: pair.1,
            bytes: session.into_message(packet),
        },
        None => TpOut::Nothing,
    }
}

/// The pair's session gets a packet.
pub(crate) fn take_packet(
    sessions: &mut Sessions,
    pair: Pair,
    micros: u64,
    packet: &Packet<'_>,
) -> TpOut
    ensures { Meets sessions.old.entries sessions.new.entries pair
        (fate_of_packet micros packet.now.number packet.now.carried.now) result }
{
    let Some(session) = sessions.get_mut(&pair) else {
        return TpOut::Nothing;
    };
    match session.take_packet(micros, packet) {
        Progress::GoesOn => TpOut::Nothing,
        Progress::Last => complete(sessions, pair, packet),
        Progress::Cut(cause) => end(sessions, pair, cause),
    }
}

/// Whether the pair has a session of this group.
fn keeps_group(sessions: &Sessions, pair: Pair, pgn: u32) -> bool
    ensures { result ≡ keeps pgn (kept_of sessions.now.entries pair) }
{
    match sessions.get(&pair) {
        Some(session) => session.pgn() == pgn,
        None => false,
    }
}

/// The pair's session goes on, with this stamp.
fn renew_in_time(sessions: &mut Sessions, pair: Pair, micros: u64) -> TpOut
    ensures { Meets sessions.old.entries sessions.new.entries pair
        (fate_in_time_of_renewal micros) result }
{
    let Some(session) = sessions.get_mut(&pair) else {
        return TpOut::Nothing;
    };
    session.renew(micros);
    TpOut::Nothing
}

/// A frame of this group renews the pair's session.
pub(crate) fn renew(sessions: &mut Sessions, pair: Pair, pgn: u32, micros: u64) -> TpOut
    ensures { MeetsNamed sessions.old.entries sessions.new.entries pair pgn
        (fate_of_renewal micros) result }
{
    match sessions.get(&pair) {
        Some(session) if session.pgn() == pgn => {
            if session.is_late(micros) {
                end(sessions, pair, CutCause::Late)
            } else {
                renew_in_time(sessions, pair, micros)
            }
        }
        _ => TpOut::Nothing,
    }
}

/// A frame of this group ends the pair's session.
pub(crate) fn cut(
    sessions: &mut Sessions,
    pair: Pair,
    pgn: u32,
    micros: u64,
    cause: CutCause,
) -> TpOut
    ensures { MeetsNamed sessions.old.entries sessions.new.entries pair pgn
        (fate_of_end cause micros) result }
{
    match sessions.get(&pair) {
        Some(session) if session.pgn() == pgn => {
            let cause = session.cause_of_end(micros, cause);
            end(sessions, pair, cause)
        }
        _ => TpOut::Nothing,
    }
}

/// An abort of this group ends the pair's session, or else that of the other direction.
pub(crate) fn abort(sessions: &mut Sessions, pair: Pair, pgn: u32, micros: u64) -> TpOut
    ensures { let p = aborted_pair sessions.old.entries pair pgn in
        MeetsNamed sessions.old.entries sessions.new.entries p pgn (fate_of_end Abort micros) result }
{
    let pair = if keeps_group(sessions, pair, pgn) {
        pair
    } else {
        (pair.1, pair.0)
    };
    cut(sessions, pair, pgn, micros, CutCause::Abort)
}

/// What a frame of this sender and receiver brings.
pub(crate) fn hear(
    alloc: Global,
    sessions: &mut Sessions,
    frame: TpFrame<'_>,
    pair: Pair,
    micros: u64,
) -> Result<TpOut, AllocError>
    ensures heard { (before : List Frame) (f : Frame) → HasHeard sessions.old.entries before
        → IsReading (role f) f (Some frame.entry) → pair ≡ pair_of f → micros ≡ f.micros
        → IfOk result (λ out. Hears sessions.old.entries sessions.new.entries before f out) }
    ensures memory { OnErr result (IsOpening frame.entry) }
    ensures unchanged { OnErr result (sessions.new.entries ≡ sessions.old.entries) }
{
    let reversed = (pair.1, pair.0);
    match frame {
        TpFrame::Opens(opening) => open(alloc, sessions, pair, micros, &opening),
        TpFrame::Renews { pgn } => Ok(renew(sessions, reversed, pgn, micros)),
        TpFrame::Ends { pgn } => Ok(cut(sessions, reversed, pgn, micros, CutCause::End)),
        TpFrame::Aborts { pgn } => Ok(abort(sessions, pair, pgn, micros)),
        TpFrame::Packet(packet) => Ok(take_packet(sessions, pair, micros, &packet)),
    }
}
