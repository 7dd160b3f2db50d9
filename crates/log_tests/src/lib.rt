//! The tests of what comes in: sources and sinks, the lines of logs, and messages of several packets.
//!
//! They show what no clause shows: that calls succeed with ample memory, that the forms of the formats are read so, and
//! what real files and streams do. They are a crate of their own, above `port_io`, `candump_log` and `j1939_tp`, so that
//! the proof of a library is not made once more with its tests.
#![tactic(auto)]

#[cfg(test)]
mod logs;
#[cfg(test)]
mod packets;
#[cfg(test)]
mod streams;
