//! How far a reader of lines has come, and what it answers.
use crate::log_line::LogLine;
use thiserror::Error;

/// How many bytes were taken, where the next line starts, how many lines were given, and whether bytes of the
/// next line were let go since it is too long.
#[derive(Clone, Copy, Debug)]
pub(crate) struct Place {
    pub taken: u64,
    pub start: u64,
    pub given: u64,
    pub long: bool,
}

/// A line, and the place of its interface among the names that were asked for.
#[derive(Debug, Drop)]
pub struct Routed {
    pub line: LogLine,
    pub place: Option<u32>,
}

/// Why no line was given.
#[derive(Clone, Copy, Debug, PartialEq, Eq, Error)]
pub enum LinesRefused {
    #[error("a read of the log failed")]
    ReadFault,
    #[error("the log is too long")]
    TooLong,
}
