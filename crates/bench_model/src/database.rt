//! Databases of messages and their signals, and the buses of a bench.

use crate::Text;
use exact_scale::Scale;
use multiplex_tree::{List, Tree};

/// The identifier of a message or frame: 29 bits where `extended`, else 11.
#[derive(Clone, Copy, Debug, PartialEq, Eq)]
pub struct Key {
    pub extended: bool,
    pub id: u32,
}

/// What kind of bus it is, which decides how a frame finds its message.
#[derive(Clone, Copy, Debug, PartialEq, Eq)]
pub enum Kind {
    Can,
    J1939,
    Lin,
}

/// The order of a signal's bits: `Intel` is little endian, `Motorola` big endian.
#[derive(Clone, Copy, Debug, PartialEq, Eq)]
pub enum Order {
    Intel,
    Motorola,
}

/// A text for one raw value of a scaled signal.
#[derive(Debug, Drop)]
pub struct Label {
    pub raw: i128,
    pub text: Text,
}

/// One entry of a LIN signal encoding. The first entry that covers a raw value applies.
#[derive(Debug, Drop)]
pub enum Entry {
    /// Covers one raw value, and may have a text for it (`logical_value` of a LIN description file).
    Logical {
        raw: u64,
        text: Option<Text>,
    },
    /// Covers the raw values from `low` to `high`, both included (`physical_range`).
    Physical {
        low: u64,
        high: u64,
        scale: Scale,
        unit: Text,
    },
    /// Covers every raw value, which stands for itself (`bcd_value` and `ascii_value`).
    Plain,
}

/// How a raw value becomes a physical value.
#[derive(Debug, Drop)]
pub enum Coding {
    /// One scaling for all raw values, as in DBC files.
    Scaled {
        scale: Scale,
        unit: Text,
        labels: List<Label>,
    },
    /// Entries for ranges of raw values, as in LIN description files.
    Listed {
        entries: List<Entry>,
    },
}

/// A signal: the bits of a frame that make one value.
#[derive(Debug, Drop)]
pub struct Signal {
    pub name: Text,
    /// The place of the least significant bit in Intel order, of the most significant one in Motorola order.
    pub start: u32,
    /// How many bits it has.
    pub size: u32,
    pub order: Order,
    /// Whether the raw value is a two's complement number.
    pub signed: bool,
    /// Whether the bits are a floating point number, which `check` refuses.
    pub float: bool,
    pub coding: Coding,
}

/// A message: what the frames of one identifier mean.
#[derive(Debug, Drop)]
pub struct Message {
    pub name: Text,
    pub key: Key,
    /// The length in bytes that the database states. Decoding asks the frame's own bytes alone.
    pub length: u32,
    pub signals: List<Signal>,
    /// Which signal selects which: the parent of each signal, by the signals' places.
    pub tree: Tree,
}

/// The messages of one bus, in the order of their file.
#[derive(Debug, Drop)]
pub struct Database {
    pub messages: List<Message>,
}

/// A bus of the bench, with its database.
#[derive(Debug, Drop)]
pub struct Bus {
    pub name: Text,
    pub kind: Kind,
    pub database: Database,
}

/// All buses of the bench. A bus is numbered by its place, from 0.
#[derive(Debug, Drop)]
pub struct Bench {
    pub buses: List<Bus>,
}
