//! What a database says of a signal's place: marks, links and the parents that follow from them.

use crate::List;

/// Raw values from `low` to `high`, both included. Where `low` is above `high` it holds none.
#[derive(Clone, Copy, Debug, PartialEq, Eq)]
pub struct Range {
    pub low: u64,
    pub high: u64,
}

/// A signal's multiplexer indicator in the DBC format: `M` is a multiplexor, `m3` is in group 3, and `m3M`
/// is both.
#[derive(Clone, Copy, Debug, PartialEq, Eq)]
pub struct Mark {
    pub multiplexor: bool,
    pub group: Option<u64>,
}

/// An entry of extended multiplexing (`SG_MUL_VAL_`): `child` is there where the raw value of `parent` lies in
/// one of the ranges. Signals are named by their places; `parent` is `None` where the entry names no signal of the
/// message.
#[derive(Debug, Drop)]
pub struct Link {
    pub child: usize,
    pub parent: Option<usize>,
    pub ranges: List<Range>,
}

/// The signal that selects another one, and for which of its raw values.
#[derive(Debug, Drop)]
pub struct Parent {
    pub signal: usize,
    pub ranges: List<Range>,
}
