//! What decoding gives: decoded messages, records of a log, and the items of a session.

use crate::{Key, Text};
use exact_scale::Exact;
use multiplex_tree::List;

/// A signal's value in one frame.
#[derive(Debug, Drop)]
pub struct SignalValue {
    pub name: Text,
    pub raw: i128,
    /// The physical value.
    pub value: Exact,
    pub unit: Text,
    pub label: Option<Text>,
}

/// What a frame's bytes mean under one database.
#[derive(Debug, Drop)]
pub struct Plain {
    /// The name of the message that matched.
    pub name: Text,
    /// Its signals that are active and present, in file order.
    pub signals: List<SignalValue>,
}

/// What is asked of a database.
#[derive(Clone, Copy, Debug)]
pub enum Ask {
    /// The message of a frame with this identifier.
    Frame { key: Key },
    /// The message of a parameter group number (SAE J1939-21).
    Group { pgn: u32 },
}

/// Why a transport session of SAE J1939-21 ended before it was whole.
#[derive(Clone, Copy, Debug, PartialEq, Eq)]
pub enum CutCause {
    /// Its pause was too long.
    Late,
    /// It was opened again.
    Again,
    /// A packet was left out.
    Order,
    /// It was aborted.
    Abort,
    /// Its receiver ended it early.
    End,
}

/// What one record of a log says.
#[derive(Debug, Drop)]
pub enum Body {
    /// A frame that a message of the database matched.
    Message {
        name: Text,
        signals: List<SignalValue>,
    },
    /// A frame that no message matched.
    Unmatched {
        key: Key,
        bytes: Text,
    },
    /// A remote frame.
    Remote {
        key: Key,
    },
    /// An error frame, with the whole number of its eight digits.
    Error {
        id: u32,
    },
    /// A line of another form.
    Bad,
    /// A message of several packets that came whole (the transport protocol of SAE J1939-21): its parameter group
    /// number, its source address and its destination address.
    Transport {
        pgn: u32,
        sa: u8,
        da: u8,
        bytes: Text,
        name: Option<Text>,
        signals: List<SignalValue>,
    },
    /// A message of several packets that was broken off, named alike, with the cause.
    Cut {
        pgn: u32,
        sa: u8,
        da: u8,
        cause: CutCause,
    },
}

/// A decoded record.
#[derive(Debug, Drop)]
pub struct Reading {
    /// The bus's place in the bench.
    pub bus: u32,
    /// The record's number on its bus, from 0.
    pub number: u64,
    /// The version of the databases that decoded it.
    pub version: u32,
    /// Microseconds since the log's epoch; 0 for a bad line.
    pub micros: u64,
    pub body: Body,
}

/// Records that a subscriber lost, one after another, since it was too slow.
#[derive(Clone, Copy, Debug, PartialEq, Eq)]
pub struct Missed {
    /// The number of the first.
    pub first: u64,
    /// How many they are.
    pub count: u64,
    /// The microseconds of the first record.
    pub first_micros: u64,
    /// The microseconds of the last record.
    pub last_micros: u64,
    /// The version of the first record.
    pub first_version: u32,
    /// The version of the last record.
    pub last_version: u32,
}

/// What a subscriber receives of a bus.
#[derive(Debug, Drop)]
pub enum Item {
    /// The stretch begins at this number, in this turn of the subscriber's place.
    Start { bus: u32, number: u64, turn: u64 },
    /// A record.
    Reading { reading: Reading },
    /// Records that were lost, since the subscriber was too slow.
    Gap { bus: u32, missed: Missed },
    /// The bus has ended, after this many records.
    End { bus: u32, number: u64 },
}
