//! What a frame is to the sessions, read from its identifier and its eight bytes.

ghost use Rattle.std.specs.Prelude.{◌≡◌, ℕ, List, length};
ghost use Rattle.bench_model.specs.Meaning.{group_of};
ghost use Rattle.j1939_tp.specs.Frames.{frame, byte, is_possible as possible, sender, receiver, named_group as named};
ghost use Rattle.j1939_tp.specs.Frames.{role, role_of_control, role_of_opening};
ghost use Rattle.j1939_tp.specs.FrameReading.{IsReading};

use crate::tp_frame::{Opening, Packet, TpFrame};

/// The groups of connection management and data transfer.
const TP_CM: u32 = 60_416;

const TP_DT: u32 = 60_160;

/// The control bytes of connection management.
const REQUEST_TO_SEND: u8 = 16;

const CLEAR_TO_SEND: u8 = 17;

const END_OF_MESSAGE: u8 = 19;

const BROADCAST: u8 = 32;

const ABORT: u8 = 255;

/// The destination address of a message to all.
const EVERYONE: u8 = 255;

const LEAST_SIZE: u16 = 9;

const GREATEST_SIZE: u16 = 1_785;

pub(crate) const PACKET_SIZE: u16 = 7;

/// The parameter group number of a 29-bit identifier: with a PDU format below 240 the PDU specific byte is an
/// address and counts as 0.
pub fn pgn_of(id: u32) -> u32
    ensures { result ≡ group_of id }
{
    if (id / 65_536) % 256 < 240 {
        (id / 65_536) % 1_024 * 256
    } else {
        (id / 256) % 262_144
    }
}

pub(crate) fn source_of(id: u32) -> u8
    ensures { (micros : ℕ) (bytes : List ℕ) → result ≡ sender (frame micros id bytes) }
{
    (id % 256) as u8
}

pub(crate) fn destination_of(id: u32) -> u8
    ensures { (micros : ℕ) (bytes : List ℕ) → result ≡ receiver (frame micros id bytes) }
{
    (id / 256 % 256) as u8
}

/// The parameter group that a TP.CM names in its bytes 6 to 8, of which the low 18 bits count.
fn named_group(bytes: &[u8]) -> u32
    requires { length bytes.now ≡ 8 }
    ensures { (micros id : ℕ) → result ≡ named (frame micros id bytes.now) }
{
    (u32::from(bytes[5]) + u32::from(bytes[6]) * 256 + u32::from(bytes[7]) * 65_536) % 262_144
}

/// Whether a message may have this size, and takes this many packets.
fn is_possible(size: u16, packets: u8) -> bool
    ensures { result ≡ possible size packets }
{
    LEAST_SIZE <= size && size <= GREATEST_SIZE && u16::from(packets) == size.div_ceil(PACKET_SIZE)
}

/// An RTS or a BAM that reaches its receiver, with the size and the packets that it may have.
fn read_opening(reaches: bool, bytes: &[u8]) -> Option<TpFrame<'_>>
    requires { length bytes.now ≡ 8 }
    ensures { (micros id : ℕ) → let f = frame micros id bytes.now in
        IsReading (role_of_opening reaches f) f result }
{
    let size = u16::from(bytes[1]) + u16::from(bytes[2]) * 256;
    let packets = bytes[3];
    if !reaches || !is_possible(size, packets) {
        return None;
    }
    Some(TpFrame::Opens(Opening {
        pgn: named_group(bytes),
        size,
        packets,
    }))
}

fn read_control(id: u32, bytes: &[u8]) -> Option<TpFrame<'_>>
    requires { length bytes.now ≡ 8 }
    ensures { (micros : ℕ) → let f = frame micros id bytes.now in
        IsReading (role_of_control (byte 1 f) f) f result }
{
    let pgn = named_group(bytes);
    match bytes[0] {
        REQUEST_TO_SEND => read_opening(destination_of(id) != EVERYONE, bytes),
        BROADCAST => read_opening(destination_of(id) == EVERYONE, bytes),
        CLEAR_TO_SEND => Some(TpFrame::Renews { pgn }),
        END_OF_MESSAGE => Some(TpFrame::Ends { pgn }),
        ABORT => Some(TpFrame::Aborts { pgn }),
        _ => None,
    }
}

/// What a frame is to the sessions, if it is anything to them.
pub(crate) fn read_frame(id: u32, bytes: &[u8]) -> Option<TpFrame<'_>>
    ensures { (micros : ℕ) → let f = frame micros id bytes.now in IsReading (role f) f result }
{
    if bytes.len() != 8 {
        return None;
    }
    match pgn_of(id) {
        TP_CM => read_control(id, bytes),
        TP_DT => Some(TpFrame::Packet(Packet {
            number: bytes[0],
            carried: &bytes[1..],
        })),
        _ => None,
    }
}
