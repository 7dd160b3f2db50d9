//! One session as it is kept.

ghost use Rattle.std.specs.Prelude.{◌≡◌, ◌+◌, ◌<◌, ◌++◌, take, IfOk};
ghost use Rattle.j1939_tp.specs.Keeping.{is_late as late, late_or, fate_of_packet};
ghost use Rattle.j1939_tp.specs.FrameReading.{fresh, IsProgress};

use crate::read::PACKET_SIZE;
use crate::tp_frame::{Opening, Packet};
use bench_model::{CutCause, Text};
use std::alloc::{AllocError, Global};
use std::marker::Model;

/// The longest pause between two frames of a session, in microseconds.
const LONGEST_PAUSE: u64 = 1_250_000;

/// A session: what its opening frame states, how many packets were taken, the stamp of its last frame, and
/// the bytes of the packets taken, in a buffer that has room for all of them.
#[derive(Drop)]
pub(crate) struct Session {
    pgn: u32,
    size: u16,
    packets: u8,
    taken: u8,
    stamp: u64,
    bytes: Vec<u8>,
}

impl Model for Session {
    ghost use Rattle.std.specs.Prelude.{◌≡◌, ◌*◌, ◌<◌, ◌≤◌, vec_len, vec_capacity};
    ghost use Rattle.j1939_tp.specs.Frames.{packet_size};
    ghost use Rattle.j1939_tp.specs.Keeping.{Kept};

    ghost Value = { Kept };

    ghost view = { λ s. record {
      group = s.pgn;
      size = s.size;
      packets = s.packets;
      taken = s.taken;
      stamp = s.stamp;
      bytes = s.bytes.items;
    } };

    ghost invariant = { λ s. (s.taken < s.packets) × (vec_len s.bytes ≡ packet_size * s.taken)
        × (packet_size * s.packets ≤ vec_capacity s.bytes) };
}

/// How a session goes on.
#[derive(Drop)]
pub(crate) enum Progress {
    GoesOn,
    /// This was the last packet.
    Last,
    Cut(CutCause),
}

impl Session {
    /// A new session. It takes the memory for all its packets.
    pub(crate) fn open(alloc: Global, micros: u64, opening: &Opening) -> Result<Session, AllocError>
        ensures { IfOk result (λ s. s ≡ fresh micros opening.now) }
    {
        let room = usize::from(opening.packets) * usize::from(PACKET_SIZE);
        Ok(Session {
            pgn: opening.pgn,
            size: opening.size,
            packets: opening.packets,
            taken: 0,
            stamp: micros,
            bytes: Vec::with_capacity(alloc, room)?,
        })
    }

    pub(crate) fn pgn(&self) -> u32
        ensures { result ≡ self.now.group }
    {
        self.pgn
    }

    pub(crate) fn is_late(&self, micros: u64) -> bool
        ensures { result ≡ late self.now micros }
    {
        micros.saturating_sub(self.stamp) > LONGEST_PAUSE
    }

    /// The cause where a frame ends the session: its pause comes before the frame's own.
    pub(crate) fn cause_of_end(&self, micros: u64, cause: CutCause) -> CutCause
        ensures { result ≡ late_or cause self.now micros }
    {
        if self.is_late(micros) {
            CutCause::Late
        } else {
            cause
        }
    }

    pub(crate) fn renew(&mut self, micros: u64)
        ensures { self.new ≡ record self.old { stamp = micros } }
    {
        self.stamp = micros;
    }

    /// What a packet makes of the session. One that is cut or whole with it is as it was.
    pub(crate) fn take_packet(&mut self, micros: u64, packet: &Packet<'_>) -> Progress
        ensures { IsProgress packet.now.carried.now self.old self.new
            (fate_of_packet micros packet.now.number packet.now.carried.now self.old) result }
    {
        if self.is_late(micros) {
            return Progress::Cut(CutCause::Late);
        }
        if packet.number > self.taken + 1 {
            return Progress::Cut(CutCause::Order);
        }
        if packet.number > self.taken {
            if packet.number == self.packets {
                return Progress::Last;
            }
            self.append(packet);
        }
        self.renew(micros);
        Progress::GoesOn
    }

    /// Takes the next packet, which is not the last one.
    fn append(&mut self, packet: &Packet<'_>)
        requires next { packet.now.number ≡ self.old.taken + 1 }
        requires more { packet.now.number < self.old.packets }
        ensures { self.new ≡ record self.old {
          taken = packet.now.number;
          bytes = self.old.bytes ++ packet.now.carried.now;
        } }
    {
        self.bytes.extend_from_slice(packet.carried).unwrap();
        self.taken = packet.number;
    }

    /// The whole message, of which this is the last packet.
    pub(crate) fn into_message(self, packet: &Packet<'_>) -> Text
        ensures { result ≡ take self.size (self.bytes ++ packet.now.carried.now) }
    {
        let Session {
            size,
            mut bytes,
            ..
        } = self;
        bytes.extend_from_slice(packet.carried).unwrap();
        bytes.truncate(usize::from(size));
        Text::from_vec(bytes)
    }
}
