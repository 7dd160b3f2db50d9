//! The frames of the protocol, as they are read.

ghost use Rattle.std.specs.Prelude.{◌≡◌, ◌<◌, length};

/// A session's parameter group number, its size in bytes and its number of packets.
#[derive(Drop)]
pub(crate) struct Opening {
    pub(crate) pgn: u32,
    pub(crate) size: u16,
    pub(crate) packets: u8,
    ghost some: { 0 < packets },
}

/// A packet's number, and the bytes that it carries.
#[derive(Drop)]
pub(crate) struct Packet<'a> {
    pub(crate) number: u8,
    pub(crate) carried: &'a [u8],
    ghost seven: { length carried.now ≡ 7 },
}

/// A frame that is of the protocol.
#[derive(Drop)]
pub(crate) enum TpFrame<'a> {
    /// RTS or BAM.
    Opens(Opening),
    /// CTS.
    Renews { pgn: u32 },
    /// The end of message acknowledgement.
    Ends { pgn: u32 },
    /// The connection abort.
    Aborts { pgn: u32 },
    /// TP.DT.
    Packet(Packet<'a>),
}
