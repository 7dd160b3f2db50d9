//! Names in frames and representations that are not defined.

ghost use Rattle.std.specs.Prelude.{◌≡◌, ℕ, IfErr, OnOk, None, Some};
ghost use Rattle.ldf_grammar.specs.Gather.{Definitions};
ghost use Rattle.ldf_grammar.specs.Unknown.{unknown_signal, unknown_in_frame, unknown_encoding, first_place, unknown_in, first_unknown};
ghost use Rattle.ldf_grammar.specs.Lookup.{HasDefinitions};
ghost use Rattle.ldf_grammar.specs.declared.fault.LdfFault.TheVariants.{UnknownName};

use crate::LdfFault;
use crate::lookups::Lookups;
use crate::statement::{Frame, FrameSignal, Representation, Statement};
use token_forms::token_text;

/// The place of the signal, where it is not defined.
fn unknown_signal<'a>(
    bytes: &'a [u8],
    lookups: &Lookups<'a, '_>,
    signal: &FrameSignal,
) -> Option<usize>
    ensures { (d : Definitions) → HasDefinitions lookups.now d → result ≡ unknown_signal bytes.now d signal.now }
{
    match lookups.signal(token_text(bytes, signal.name)) {
        Some(_) => None,
        None => Some(signal.name.at),
    }
}

/// The first signal of a frame that is not defined.
fn unknown_in_frame<'a>(bytes: &'a [u8], lookups: &Lookups<'a, '_>, frame: &Frame) -> Option<usize>
    ensures { (d : Definitions) → HasDefinitions lookups.now d → result ≡ unknown_in_frame bytes.now d frame.now }
{
    for signal in frame.signals.items() {
        if let Some(at) = unknown_signal(bytes, lookups, signal) {
            return Some(at);
        }
    }
    None
}

/// The first signal of frames that is not defined.
fn unknown_in_frames<'a>(
    bytes: &'a [u8],
    lookups: &Lookups<'a, '_>,
    frames: &[Frame],
) -> Option<usize>
    ensures { (d : Definitions) → HasDefinitions lookups.now d → result ≡ first_place (unknown_in_frame bytes.now d) frames.now }
{
    for frame in frames {
        if let Some(at) = unknown_in_frame(bytes, lookups, frame) {
            return Some(at);
        }
    }
    None
}

/// The place of the encoding, where it is not defined.
fn unknown_encoding<'a>(
    bytes: &'a [u8],
    lookups: &Lookups<'a, '_>,
    line: &Representation,
) -> Option<usize>
    ensures { (d : Definitions) → HasDefinitions lookups.now d → result ≡ unknown_encoding bytes.now d line.now }
{
    match lookups.encoding(token_text(bytes, line.encoding)) {
        Some(_) => None,
        None => Some(line.encoding.at),
    }
}

/// The first encoding of representations that is not defined.
fn unknown_in_lines<'a>(
    bytes: &'a [u8],
    lookups: &Lookups<'a, '_>,
    lines: &[Representation],
) -> Option<usize>
    ensures { (d : Definitions) → HasDefinitions lookups.now d → result ≡ first_place (unknown_encoding bytes.now d) lines.now }
{
    for line in lines {
        if let Some(at) = unknown_encoding(bytes, lookups, line) {
            return Some(at);
        }
    }
    None
}

/// The first name of a statement that is not defined.
fn unknown_in<'a>(
    bytes: &'a [u8],
    lookups: &Lookups<'a, '_>,
    statement: &Statement,
) -> Option<usize>
    ensures { (d : Definitions) → HasDefinitions lookups.now d → result ≡ unknown_in bytes.now d statement.now }
{
    match statement {
        Statement::Frames { frames } => unknown_in_frames(bytes, lookups, frames.items()),
        Statement::Representations { lines } => unknown_in_lines(bytes, lookups, lines.items()),
        Statement::Signals { .. } | Statement::Encodings { .. } | Statement::PassedOver => None,
    }
}

/// Each name is defined.
pub(crate) fn check_names<'a>(
    bytes: &'a [u8],
    lookups: &Lookups<'a, '_>,
    statements: &[Statement],
) -> Result<(), LdfFault>
    ensures known { (d : Definitions) → HasDefinitions lookups.now d → OnOk result (first_unknown bytes.now d statements.now ≡ None) }
    ensures unknown { (d : Definitions) → HasDefinitions lookups.now d →
        IfErr result (λ fault. (at : ℕ) × (fault ≡ UnknownName at) × (first_unknown bytes.now d statements.now ≡ Some at)) }
{
    for statement in statements {
        if let Some(at) = unknown_in(bytes, lookups, statement) {
            return Err(LdfFault::UnknownName { at });
        }
    }
    Ok(())
}
