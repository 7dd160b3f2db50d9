//! The line of a reply.

ghost use Rattle.std.specs.Prelude.{◌≡◌, ◌++◌, ◌∷◌, [], OnOk, OnErr, codes, flat_map};
ghost use Rattle.std.specs.Fmt.{decimal};
ghost use Rattle.text_words.specs.SpacedWords.{behind_blank, text_of_words};
ghost use Rattle.exact_scale.specs.Buffer.{Extends};
ghost use Rattle.region_store.specs.declared.loader.Holder.{Holder};
ghost use Rattle.bench_loader.specs.FaultText.{fault_text};
ghost use Rattle.bench_loader.specs.ReplyText.{bus_word, holder_words, reply_words, reply_line};

use crate::line::append_place;
use crate::text::append_fault;
use crate::{DatabaseFault, Reply};
use bench_model::Text;
use itoa::Buffer;
use region_store::Holder;
use std::alloc::AllocError;
use text_words::append_word;

/// Appends a number behind a blank.
fn append_number(out: &mut Vec<u8>, number: u64) -> Result<(), AllocError>
    ensures ok { OnOk result (out.new.items ≡ out.old.items ++ behind_blank (decimal number)) }
    ensures grows { Extends out.old.items out.new.items }
{
    let mut digits = Buffer::new();
    append_word(out, digits.format(number).as_bytes())
}

/// Appends the name of a bus behind a blank, or the bus's place where it has no name.
fn append_bus(out: &mut Vec<u8>, buses: &[Text], bus: u32) -> Result<(), AllocError>
    ensures ok { OnOk result (out.new.items ≡ out.old.items ++ behind_blank (bus_word buses.now bus)) }
    ensures grows { Extends out.old.items out.new.items }
{
    match buses.get(bus as usize) {
        Some(name) => append_word(out, name.bytes()),
        None => append_number(out, u64::from(bus)),
    }
}

/// Appends a word and the name of a bus.
fn append_of_bus(out: &mut Vec<u8>, word: &[u8], buses: &[Text], bus: u32) -> Result<(), AllocError>
    ensures ok { OnOk result (out.new.items ≡ out.old.items ++ text_of_words (word.now ∷ bus_word buses.now bus ∷ [])) }
    ensures grows { Extends out.old.items out.new.items }
{
    out.extend_from_slice(word)?;
    append_bus(out, buses, bus)
}

fn append_refused(
    out: &mut Vec<u8>,
    buses: &[Text],
    bus: u32,
    fault: &DatabaseFault,
) -> Result<(), AllocError>
    ensures ok { OnOk result (out.new.items ≡ out.old.items
        ++ text_of_words (codes "refused" ∷ bus_word buses.now bus ∷ fault_text fault.now ∷ [])) }
    ensures grows { Extends out.old.items out.new.items }
{
    append_of_bus(out, b"refused", buses, bus)?;
    out.push(b' ')?;
    append_fault(out, fault)
}

/// Appends a holder, its numbers behind a blank each.
fn append_holder(out: &mut Vec<u8>, holder: &Holder) -> Result<(), AllocError>
    ensures ok { OnOk result (out.new.items ≡ out.old.items ++ flat_map behind_blank (holder_words holder.now)) }
    ensures grows { Extends out.old.items out.new.items }
{
    append_number(out, u64::from(holder.region))?;
    append_number(out, u64::from(holder.lane))?;
    append_number(out, holder.pin)
}

fn append_holders(out: &mut Vec<u8>, holders: &[Holder]) -> Result<(), AllocError>
    ensures ok { OnOk result (out.new.items ≡ out.old.items
        ++ flat_map (λ (h : Holder). flat_map behind_blank (holder_words h)) holders.now) }
    ensures grows { Extends out.old.items out.new.items }
{
    for holder in holders {
        append_holder(out, holder)?;
    }
    Ok(())
}

fn append_busy(out: &mut Vec<u8>, holders: &[Holder]) -> Result<(), AllocError>
    ensures ok { OnOk result (out.new.items ≡ out.old.items
        ++ text_of_words (codes "busy" ∷ flat_map holder_words holders.now)) }
    ensures grows { Extends out.old.items out.new.items }
{
    out.extend_from_slice(b"busy")?;
    append_holders(out, holders)
}

fn append_large(out: &mut Vec<u8>, need: u64, room: u64) -> Result<(), AllocError>
    ensures ok { OnOk result (out.new.items ≡ out.old.items
        ++ text_of_words (codes "large" ∷ decimal need ∷ decimal room ∷ [])) }
    ensures grows { Extends out.old.items out.new.items }
{
    append_place(out, b"large", need)?;
    append_number(out, room)
}

fn append_unknown(out: &mut Vec<u8>, name: &Text) -> Result<(), AllocError>
    ensures ok { OnOk result (out.new.items ≡ out.old.items ++ text_of_words (codes "unknown" ∷ name.now ∷ [])) }
    ensures grows { Extends out.old.items out.new.items }
{
    out.extend_from_slice(b"unknown")?;
    append_word(out, name.bytes())
}

/// Appends the words of a reply.
fn append_words(out: &mut Vec<u8>, buses: &[Text], reply: &Reply) -> Result<(), AllocError>
    ensures ok { OnOk result (out.new.items ≡ out.old.items ++ text_of_words (reply_words buses.now reply.now)) }
    ensures grows { Extends out.old.items out.new.items }
{
    match reply {
        Reply::Ok { version } => append_place(out, b"ok", u64::from(*version)),
        Reply::Words => out.extend_from_slice(b"words"),
        Reply::UnknownBus { place: _, name } => append_unknown(out, name),
        Reply::OpenFault { bus } => append_of_bus(out, b"open", buses, *bus),
        Reply::ReadFault { bus } => append_of_bus(out, b"read", buses, *bus),
        Reply::Refused { bus, fault } => append_refused(out, buses, *bus, fault),
        Reply::TooLarge { need, room } => append_large(out, *need, *room),
        Reply::VersionsSpent => out.extend_from_slice(b"spent"),
        Reply::Busy { holders } => append_busy(out, holders.list()),
        Reply::Memory => out.extend_from_slice(b"memory"),
    }
}

fn append_line(out: &mut Vec<u8>, buses: &[Text], reply: &Reply) -> Result<(), AllocError>
    ensures ok { OnOk result (out.new.items ≡ out.old.items ++ reply_line buses.now reply.now) }
    ensures grows { Extends out.old.items out.new.items }
{
    append_words(out, buses, reply)?;
    out.push(b'\n')?;
    Ok(())
}

impl Reply {
    /// Appends the line of the reply, with its line feed; `buses` are the names of the bench's buses, in order. After
    /// an error the buffer has the bytes that it had.
    pub fn text(&self, buses: &[Text], out: &mut Vec<u8>) -> Result<(), AllocError>
        ensures ok { OnOk result (out.new.items ≡ out.old.items ++ reply_line buses.now self.now) }
        ensures err { OnErr result (out.new.items ≡ out.old.items) }
    {
        let start = out.len();
        match append_line(out, buses, self) {
            Ok(()) => Ok(()),
            Err(error) => {
                out.truncate(start);
                Err(error)
            }
        }
    }
}
