//! Rows with what they refer to, and lists of them.

ghost use Rattle.std.specs.Prelude.{◌≡◌, ℕ, ◌+◌, ◌++◌, All, List, OnOk, IfOk};
ghost use Rattle.image_compiler.specs.Size.{total as total_of, table_size as size_of_table};
ghost use Rattle.image_compiler.specs.Layout.{rows_from, parts_from, table_words};

use crate::texts::{place_behind, sum};
use std::alloc::{AllocError, Global};

/// A part of a bench whose row refers to words elsewhere in the image.
pub(crate) trait Parts {
    /// How many words its row refers to.
    ghost behind: { Self → ℕ };

    /// These words, which begin at a place.
    ghost parts: { ℕ → Self → List ℕ };

    /// What its type says.
    ghost is_typed: { Self → Type 0 };

    /// How many words its row refers to.
    fn behind(&self) -> Result<u64, AllocError>
        ensures size { IfOk result (λ n. n ≡ behind self.now) }
        ensures typed { OnOk result (is_typed self.now) };

    /// The words that its row refers to, which begin at a place.
    fn write_parts(&self, alloc: Global, out: &mut Vec<u64>, place: u64) -> Result<(), AllocError>
        ensures { OnOk result (out.new.items ≡ out.old.items ++ parts place self.now) };
}

/// A part of a bench with a row of its own.
pub(crate) trait Row: Parts {
    /// The row, where what it refers to begins at a place.
    ghost row_words: { ℕ → Self → List ℕ };

    /// The row, where what it refers to begins at a place.
    fn write_row(&self, out: &mut Vec<u64>, place: u64) -> Result<(), AllocError>
        ensures { OnOk result (out.new.items ≡ out.old.items ++ row_words place self.now) };
}

/// How many words the rows refer to.
pub(crate) fn total<T: Parts>(rows: &[T]) -> Result<u64, AllocError>
    ensures size { IfOk result (λ n. n ≡ total_of T.behind rows.now) }
    ensures typed { OnOk result (All T.is_typed rows.now) }
{
    let mut size = 0;
    for row in rows {
        let behind = row.behind()?;
        size = sum(size, behind)?;
    }
    Ok(size)
}

/// How many words the rows and what they refer to take.
pub(crate) fn table_size<T: Parts>(width: usize, rows: &[T]) -> Result<u64, AllocError>
    ensures size { IfOk result (λ n. n ≡ size_of_table width T.behind rows.now) }
    ensures typed { OnOk result (All T.is_typed rows.now) }
{
    let behind = total(rows)?;
    place_behind(behind, width, rows.len())
}

/// The rows, where what they refer to begins at a place.
fn write_rows<T: Row>(out: &mut Vec<u64>, first: u64, rows: &[T]) -> Result<(), AllocError>
    ensures { OnOk result (out.new.items ≡ out.old.items ++ rows_from T.row_words T.behind first rows.now) }
{
    let mut place = first;
    for row in rows {
        row.write_row(out, place)?;
        let behind = row.behind()?;
        place = sum(place, behind)?;
    }
    Ok(())
}

/// What the rows refer to, which begins at a place.
pub(crate) fn write_all_parts<T: Parts>(
    alloc: Global,
    out: &mut Vec<u64>,
    first: u64,
    rows: &[T],
) -> Result<(), AllocError>
    ensures { OnOk result (out.new.items ≡ out.old.items ++ parts_from T.parts T.behind first rows.now) }
{
    let mut place = first;
    for row in rows {
        row.write_parts(alloc, out, place)?;
        let behind = row.behind()?;
        place = sum(place, behind)?;
    }
    Ok(())
}

/// The rows from a place on, and behind them what they refer to.
pub(crate) fn write_table<T: Row>(
    alloc: Global,
    out: &mut Vec<u64>,
    place: u64,
    width: usize,
    rows: &[T],
) -> Result<(), AllocError>
    ensures { OnOk result (out.new.items ≡ out.old.items ++ table_words width T.row_words T.parts T.behind place rows.now) }
{
    let first = place_behind(place, width, rows.len())?;
    write_rows(out, first, rows)?;
    write_all_parts(alloc, out, first, rows)
}
