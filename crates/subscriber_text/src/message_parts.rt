//! The text of a message's record, part by part: its first line, and then the line of each signal as its value comes.

ghost use Rattle.std.specs.Prelude.{◌≡◌, [], ◌++◌, Some, OnOk, IfOk};
ghost use Rattle.bench_model.specs.declared.reading.Body.TheVariants as Bodies;
ghost use Rattle.exact_scale.specs.Buffer.{Extends};
ghost use Rattle.subscriber_text.specs.ItemText.{line_of, record_words};
ghost use Rattle.subscriber_text.specs.Wants.{wants_all_signals};
ghost use Rattle.subscriber_text.specs.MessageParts.{message_record, first_line, all_or_named, signals_wanted, is_covered, covered_line};
ghost use Rattle.subscriber_text.specs.PartsView.{begin_text, place_of, signal_view};

use crate::Wants;
use crate::line::{append_line, append_words};
use crate::signal::{SignalParts, append_signal};
use bench_model::Reading;
use itoa::Buffer;
use std::alloc::AllocError;

/// Where a record is: its bus by the place of that, its number on the bus, and the version and the stamp of its
/// line.
#[derive(Clone, Copy, Debug, PartialEq, Eq)]
pub struct RecordPlace {
    pub bus: u32,
    pub number: u64,
    pub version: u32,
    pub micros: u64,
}

/// Which signals of a message's record are wanted.
#[derive(Clone, Copy, Debug, PartialEq, Eq)]
pub enum WantedSignals {
    /// None, and the record's first line is not wanted either.
    Nothing,
    /// Those that a want names.
    Named,
    All,
}

impl RecordPlace {
    /// Where this record is.
    pub(crate) fn of(reading: &Reading) -> RecordPlace
        ensures { result ≡ place_of reading.now }
    {
        RecordPlace {
            bus: reading.bus,
            number: reading.number,
            version: reading.version,
            micros: reading.micros,
        }
    }
}

/// Appends what a record begins with: its letter, its bus, its number, its version and its stamp.
pub(crate) fn append_begin(
    out: &mut Vec<u8>,
    letter: &[u8],
    bus: &[u8],
    place: RecordPlace,
) -> Result<(), AllocError>
    ensures ok { OnOk result (out.new.items ≡ out.old.items ++ begin_text letter.now bus.now place) }
    ensures grows { Extends out.old.items out.new.items }
{
    let mut number = Buffer::new();
    let mut version = Buffer::new();
    let mut micros = Buffer::new();
    let words = [
        bus,
        number.format(place.number).as_bytes(),
        version.format(place.version).as_bytes(),
        micros.format(place.micros).as_bytes(),
    ];
    append_words(out, letter, &words)
}

/// Appends the first line of a message's record.
pub(crate) fn append_message_line(
    out: &mut Vec<u8>,
    bus: &[u8],
    place: RecordPlace,
    name: &[u8],
) -> Result<(), AllocError>
    ensures ok { OnOk result (out.new.items ≡ out.old.items ++ line_of
        (record_words bus.now (message_record place name.now []) (Bodies.Message name.now []))) }
    ensures grows { Extends out.old.items out.new.items }
{
    append_begin(out, b"m", bus, place)?;
    append_line(out, b"", &[name])
}

/// Which signals of the records of this message are wanted, where the records are.
fn wanted_signals(wants: &Wants, bus: u32, name: &[u8]) -> WantedSignals
    ensures { result ≡ all_or_named (wants_all_signals wants.now bus (Some name.now)) }
{
    if wants.wants_all_signals(bus as usize, Some(name)) {
        WantedSignals::All
    } else {
        WantedSignals::Named
    }
}

/// Appends the first line of the record of a message of this name, where it is wanted, and answers which of its
/// signals are. Their lines are to be appended by `append_wanted_signal`, in their order. After an error some of the
/// line may be in the buffer.
pub fn append_message(
    wants: &Wants,
    place: RecordPlace,
    name: &[u8],
    out: &mut Vec<u8>,
) -> Result<WantedSignals, AllocError>
    ensures ok { OnOk result (out.new.items ≡ out.old.items
        ++ first_line wants.now (message_record place name.now [])) }
    ensures signals { IfOk result (λ signals. signals ≡ signals_wanted wants.now place.bus name.now) }
    ensures grows { Extends out.old.items out.new.items }
{
    let Some(bus) = wants.wanted_record(place.bus, Some(name)) else {
        return Ok(WantedSignals::Nothing);
    };
    append_message_line(out, bus, place, name)?;
    Ok(wanted_signals(wants, place.bus, name))
}

/// Whether a signal of this name is wanted.
fn is_covered(wants: &Wants, bus: u32, message: &[u8], wanted: WantedSignals, name: &[u8]) -> bool
    ensures { result ≡ is_covered wants.now bus message.now wanted name.now }
{
    match wanted {
        WantedSignals::Nothing => false,
        WantedSignals::Named => wants.names_signal(bus as usize, Some(message), name),
        WantedSignals::All => true,
    }
}

/// Appends the line of a signal of a record of this message, where it is among those that are wanted of it. After an
/// error some of the line may be in the buffer.
pub fn append_wanted_signal(
    wants: &Wants,
    bus: u32,
    message: &[u8],
    wanted: WantedSignals,
    signal: SignalParts,
    out: &mut Vec<u8>,
) -> Result<(), AllocError>
    ensures ok { OnOk result (out.new.items ≡ out.old.items ++ covered_line wants.now bus message.now wanted
        (signal_view signal.entry)) }
    ensures grows { Extends out.old.items out.new.items }
{
    if is_covered(wants, bus, message, wanted, signal.name) {
        append_signal(out, signal)?;
    }
    Ok(())
}
