//! Labels and entries, and the codings that have them.

ghost use Rattle.std.specs.Prelude.{◌≡◌, ◌++◌, OnOk, IfOk};
ghost use Rattle.image_compiler.specs.Size.{label_behind, entry_behind, coding_behind};
ghost use Rattle.image_compiler.specs.Layout.{label_row, label_parts, entry_row, entry_parts, coding_row, coding_parts};
ghost use Rattle.image_compiler.specs.Typed.{IsTypedLabel, IsTypedEntry, IsTypedCoding};

use crate::parts::{Parts, Row, table_size, write_table};
use crate::texts::{
    append, low_word, optional_reference, optional_text_size, reference, sum, text_size,
    write_optional_text, write_text,
};
use bench_model::{Coding, Entry, Label};
use image_words::layout::{ENTRY_WORDS, LABEL_WORDS, LISTED, LOGICAL, PHYSICAL, PLAIN, SCALED};
use std::alloc::{AllocError, Global};

impl Parts for Label {
    ghost behind = { label_behind };

    ghost parts = { label_parts };

    ghost is_typed = { IsTypedLabel };

    fn behind(&self) -> Result<u64, AllocError> {
        Ok(text_size(&self.text))
    }

    fn write_parts(
        &self,
        _alloc: Global,
        out: &mut Vec<u64>,
        _place: u64,
    ) -> Result<(), AllocError> {
        write_text(out, &self.text)
    }
}

impl Row for Label {
    ghost row_words = { label_row };

    fn write_row(&self, out: &mut Vec<u64>, place: u64) -> Result<(), AllocError> {
        let raw = low_word(self.raw)?;
        let text = reference(place, &self.text)?;
        append(out, &[raw, u64::from(self.raw < 0), text])
    }
}

impl Parts for Entry {
    ghost behind = { entry_behind };

    ghost parts = { entry_parts };

    ghost is_typed = { IsTypedEntry };

    fn behind(&self) -> Result<u64, AllocError> {
        match self {
            Entry::Logical { text, .. } => Ok(optional_text_size(text)),
            Entry::Physical { unit, .. } => Ok(text_size(unit)),
            Entry::Plain => Ok(0),
        }
    }

    fn write_parts(
        &self,
        _alloc: Global,
        out: &mut Vec<u64>,
        _place: u64,
    ) -> Result<(), AllocError> {
        match self {
            Entry::Logical { text, .. } => write_optional_text(out, text),
            Entry::Physical { unit, .. } => write_text(out, unit),
            Entry::Plain => Ok(()),
        }
    }
}

impl Row for Entry {
    ghost row_words = { entry_row };

    fn write_row(&self, out: &mut Vec<u64>, place: u64) -> Result<(), AllocError> {
        match self {
            Entry::Logical { raw, text } => {
                let text = optional_reference(place, text)?;
                append(out, &[LOGICAL, *raw, *raw, 0, 0, 0, text])
            }
            Entry::Physical {
                low,
                high,
                scale,
                unit,
            } => {
                let factor = low_word(scale.factor)?;
                let offset = low_word(scale.offset)?;
                let unit = reference(place, unit)?;
                append(
                    out,
                    &[
                        PHYSICAL,
                        *low,
                        *high,
                        factor,
                        offset,
                        u64::from(scale.k),
                        unit,
                    ],
                )
            }
            Entry::Plain => append(out, &[PLAIN, 0, 0, 0, 0, 0, 0]),
        }
    }
}

/// How many words a coding refers to.
pub(crate) fn coding_size(coding: &Coding) -> Result<u64, AllocError>
    ensures size { IfOk result (λ n. n ≡ coding_behind coding.now) }
    ensures typed { OnOk result (IsTypedCoding coding.now) }
{
    match coding {
        Coding::Scaled { unit, labels, .. } => {
            let labels = table_size(LABEL_WORDS, labels.items())?;
            sum(text_size(unit), labels)
        }
        Coding::Listed { entries } => table_size(ENTRY_WORDS, entries.items()),
    }
}

/// The last seven words of a signal's row, where what its coding refers to begins at a place.
pub(crate) fn write_coding(
    out: &mut Vec<u64>,
    place: u64,
    coding: &Coding,
) -> Result<(), AllocError>
    ensures { OnOk result (out.new.items ≡ out.old.items ++ coding_row place coding.now) }
{
    match coding {
        Coding::Scaled {
            scale,
            unit,
            labels,
        } => {
            let first = sum(place, text_size(unit))?;
            let factor = low_word(scale.factor)?;
            let offset = low_word(scale.offset)?;
            let text = reference(place, unit)?;
            let count = labels.items().len() as u64;
            append(
                out,
                &[
                    SCALED,
                    first,
                    count,
                    factor,
                    offset,
                    u64::from(scale.k),
                    text,
                ],
            )
        }
        Coding::Listed { entries } => append(
            out,
            &[LISTED, place, entries.items().len() as u64, 0, 0, 0, 0],
        ),
    }
}

/// What a coding refers to, which begins at a place.
pub(crate) fn write_coding_parts(
    alloc: Global,
    out: &mut Vec<u64>,
    place: u64,
    coding: &Coding,
) -> Result<(), AllocError>
    ensures { OnOk result (out.new.items ≡ out.old.items ++ coding_parts place coding.now) }
{
    match coding {
        Coding::Scaled { unit, labels, .. } => {
            let first = sum(place, text_size(unit))?;
            write_text(out, unit)?;
            write_table(alloc, out, first, LABEL_WORDS, labels.items())
        }
        Coding::Listed { entries } => write_table(alloc, out, place, ENTRY_WORDS, entries.items()),
    }
}
