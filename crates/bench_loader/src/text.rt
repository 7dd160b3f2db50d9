//! The text of a fault.

ghost use Rattle.std.specs.Prelude.{◌≡◌, ◌++◌, ◌∷◌, OnOk, OnErr, flat_map};
ghost use Rattle.text_words.specs.SpacedWords.{behind_blank, text_of_words};
ghost use Rattle.bench_loader.specs.FaultText.{identifier, mux_word, check_word, message_words, signal_words};
ghost use Rattle.bench_loader.specs.FaultText.{lex_words, check_words, dbc_words, ldf_words, fault_words, fault_text};
ghost use Rattle.exact_scale.specs.Buffer.{Extends};

use crate::DatabaseFault;
use crate::line::append_place;
use bench_model::{CheckFault, CheckWhy, Key, Text};
use dbc_grammar::DbcFault;
use itoa::Buffer;
use ldf_grammar::LdfFault;
use multiplex_tree::MuxWhy;
use sig_text::LexFault;
use std::alloc::AllocError;
use text_words::append_word;

/// What an extended identifier counts more.
const EXTENDED: u64 = 1 << 31;

/// An identifier as one number.
fn identifier(key: Key) -> u64
    ensures { result ≡ identifier key }
{
    if key.extended {
        u64::from(key.id) + EXTENDED
    } else {
        u64::from(key.id)
    }
}

fn mux_word(why: MuxWhy) -> &'static [u8]
    ensures { result.now ≡ mux_word why }
{
    match why {
        MuxWhy::NoParent => b"noparent",
        MuxWhy::Ambiguous => b"ambiguous",
        MuxWhy::Cycle => b"cycle",
        MuxWhy::Deep => b"deep",
    }
}

fn check_word(why: CheckWhy) -> &'static [u8]
    ensures { result.now ≡ check_word why }
{
    match why {
        CheckWhy::Size => b"size",
        CheckWhy::DuplicateMessage => b"message",
        CheckWhy::DuplicateSignal => b"signal",
        CheckWhy::Float => b"float",
        CheckWhy::Limit => b"limit",
    }
}

fn append_lex(out: &mut Vec<u8>, fault: &LexFault) -> Result<(), AllocError>
    ensures ok { OnOk result (out.new.items ≡ out.old.items ++ text_of_words (lex_words fault.now)) }
    ensures grows { Extends out.old.items out.new.items }
{
    match fault {
        LexFault::OpenString { at } => append_place(out, b"string", *at as u64),
        LexFault::OpenComment { at } => append_place(out, b"comment", *at as u64),
        LexFault::Byte { at } => append_place(out, b"byte", *at as u64),
        LexFault::Memory => out.extend_from_slice(b"memory"),
    }
}

/// Appends a message's identifier behind a blank, where there is a message.
fn append_message(out: &mut Vec<u8>, message: Option<Key>) -> Result<(), AllocError>
    ensures ok { OnOk result (out.new.items ≡ out.old.items ++ flat_map behind_blank (message_words message)) }
    ensures grows { Extends out.old.items out.new.items }
{
    match message {
        Some(key) => {
            let mut digits = Buffer::new();
            append_word(out, digits.format(identifier(key)).as_bytes())
        }
        None => Ok(()),
    }
}

/// Appends a signal's name behind a blank, where there is a signal.
fn append_signal(out: &mut Vec<u8>, signal: &Option<Text>) -> Result<(), AllocError>
    ensures ok { OnOk result (out.new.items ≡ out.old.items ++ flat_map behind_blank (signal_words signal.now)) }
    ensures grows { Extends out.old.items out.new.items }
{
    match signal {
        Some(name) => append_word(out, name.bytes()),
        None => Ok(()),
    }
}

fn append_check(out: &mut Vec<u8>, fault: &CheckFault) -> Result<(), AllocError>
    ensures ok { OnOk result (out.new.items ≡ out.old.items ++ text_of_words (check_words fault.now)) }
    ensures grows { Extends out.old.items out.new.items }
{
    match fault {
        CheckFault::At {
            why,
            message,
            signal,
        } => {
            out.extend_from_slice(check_word(*why))?;
            append_message(out, *message)?;
            append_signal(out, signal)
        }
        CheckFault::Memory => out.extend_from_slice(b"memory"),
    }
}

fn append_mux(out: &mut Vec<u8>, id: u32, signal: &Text, why: MuxWhy) -> Result<(), AllocError>
    ensures ok { OnOk result (out.new.items ≡ out.old.items ++ text_of_words (dbc_words (DbcFault.Mux id signal.now why))) }
    ensures grows { Extends out.old.items out.new.items }
{
    append_place(out, b"mux", u64::from(id))?;
    append_word(out, signal.bytes())?;
    append_word(out, mux_word(why))
}

fn append_dbc(out: &mut Vec<u8>, fault: &DbcFault) -> Result<(), AllocError>
    ensures ok { OnOk result (out.new.items ≡ out.old.items ++ text_of_words (dbc_words fault.now)) }
    ensures grows { Extends out.old.items out.new.items }
{
    match fault {
        DbcFault::Lex { fault } => append_lex(out, fault),
        DbcFault::Statement { at } => append_place(out, b"statement", *at as u64),
        DbcFault::Scale { at } => append_place(out, b"scale", *at as u64),
        DbcFault::Mux { id, signal, why } => append_mux(out, *id, signal, *why),
        DbcFault::Check { fault } => append_check(out, fault),
        DbcFault::Memory => out.extend_from_slice(b"memory"),
    }
}

fn append_ldf(out: &mut Vec<u8>, fault: &LdfFault) -> Result<(), AllocError>
    ensures ok { OnOk result (out.new.items ≡ out.old.items ++ text_of_words (ldf_words fault.now)) }
    ensures grows { Extends out.old.items out.new.items }
{
    match fault {
        LdfFault::Lex { fault } => append_lex(out, fault),
        LdfFault::Statement { at } => append_place(out, b"statement", *at as u64),
        LdfFault::Scale { at } => append_place(out, b"scale", *at as u64),
        LdfFault::UnknownName { at } => append_place(out, b"name", *at as u64),
        LdfFault::Check { fault } => append_check(out, fault),
        LdfFault::Memory => out.extend_from_slice(b"memory"),
    }
}

pub(crate) fn append_fault(out: &mut Vec<u8>, fault: &DatabaseFault) -> Result<(), AllocError>
    ensures ok { OnOk result (out.new.items ≡ out.old.items ++ text_of_words (fault_words fault.now)) }
    ensures grows { Extends out.old.items out.new.items }
{
    match fault {
        DatabaseFault::Long => out.extend_from_slice(b"long"),
        DatabaseFault::Dbc { fault } => append_dbc(out, fault),
        DatabaseFault::Ldf { fault } => append_ldf(out, fault),
    }
}

impl DatabaseFault {
    /// Appends the words of the fault. After an error the buffer has the bytes that it had.
    pub fn text(&self, out: &mut Vec<u8>) -> Result<(), AllocError>
        ensures ok { OnOk result (out.new.items ≡ out.old.items ++ fault_text self.now) }
        ensures err { OnErr result (out.new.items ≡ out.old.items) }
    {
        let start = out.len();
        match append_fault(out, self) {
            Ok(()) => Ok(()),
            Err(error) => {
                out.truncate(start);
                Err(error)
            }
        }
    }
}
