//! A log with what each of its lines says.

use super::cases::{CLASSIC, Case, LENGTHS, REMOTE_AND_FD, STAMPS_AND_BLANKS, Want};
use super::error_frames::ERROR_FRAMES;
use super::padded;
use std::alloc::{AllocError, Global};
use std::test::Fail;

/// The bytes of a log, and what its lines say, one after another.
#[derive(Drop)]
pub struct Table {
    pub bytes: Vec<u8>,
    pub wants: Vec<Want>,
}

impl Table {
    fn new(alloc: Global) -> Table {
        Table {
            bytes: Vec::new(alloc),
            wants: Vec::new(alloc),
        }
    }

    /// One line more, without its line feed.
    fn add(&mut self, text: &[u8], want: Want) -> Result<(), AllocError> {
        self.bytes.extend_from_slice(text)?;
        self.wants.push(want)?;
        Ok(())
    }

    fn end_line(&mut self) -> Result<(), AllocError> {
        self.bytes.push(b'\n')?;
        Ok(())
    }

    fn add_cases(&mut self, cases: &[Case]) -> Result<(), AllocError> {
        for case in cases {
            self.add(case.text, case.want)?;
            self.end_line()?;
        }
        Ok(())
    }

    /// A line that is too long, of so many bytes.
    fn add_long(&mut self, len: usize) -> Result<(), AllocError> {
        for _ in 0..len {
            self.bytes.push(b'a')?;
        }
        self.add(b"\n", Want::Bad)
    }
}

/// A line of 512 bytes, the most that one has, or of one more.
#[derive(Clone, Copy)]
pub enum Longest {
    Fits,
    IsOver,
}

/// Adds such a line.
fn add_longest(alloc: Global, table: &mut Table, longest: Longest) -> Result<(), Fail> {
    match longest {
        Longest::Fits => {
            let want = Want::Frame(1_000_000, false, 0x100, &[0x00]);
            table.add(&padded(alloc, 512, b'a')?, want)?;
        }
        Longest::IsOver => table.add(&padded(alloc, 513, b'a')?, Want::Bad)?,
    }
    Ok(())
}

fn add_classic(table: &mut Table) -> Result<(), AllocError> {
    table.add_cases(&CLASSIC)
}

fn add_remote_and_fd(table: &mut Table) -> Result<(), AllocError> {
    table.add_cases(&REMOTE_AND_FD)
}

fn add_stamps_and_blanks(table: &mut Table) -> Result<(), AllocError> {
    table.add_cases(&STAMPS_AND_BLANKS)
}

fn add_error_frames(table: &mut Table) -> Result<(), AllocError> {
    table.add_cases(&ERROR_FRAMES)
}

fn add_lengths(table: &mut Table) -> Result<(), AllocError> {
    table.add_cases(&LENGTHS)
}

/// Two lines that are far too long, and all cases.
fn all_cases(alloc: Global) -> Result<Table, AllocError> {
    let mut table = Table::new(alloc);
    table.add_long(600)?;
    table.add_long(70_000)?;
    add_classic(&mut table)?;
    add_remote_and_fd(&mut table)?;
    add_stamps_and_blanks(&mut table)?;
    add_error_frames(&mut table)?;
    add_lengths(&mut table)?;
    Ok(table)
}

/// All cases, and the two longest lines, the last of which has no line feed.
pub fn log_ending(alloc: Global, before: Longest, last: Longest) -> Result<Table, Fail> {
    let mut table = all_cases(alloc)?;
    add_longest(alloc, &mut table, before)?;
    table.end_line()?;
    add_longest(alloc, &mut table, last)?;
    Ok(table)
}
