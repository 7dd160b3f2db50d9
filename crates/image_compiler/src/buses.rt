//! Buses with their indexes.

ghost use Rattle.std.specs.Prelude.{◌≡◌, ◌++◌, ◌*◌, ◌+◌, length, OnOk, IfOk};
ghost use Rattle.image_words.specs.Index.{key_entries as entries_by_key, group_entries as entries_by_group, groups_on};
ghost use Rattle.image_compiler.specs.Size.{bus_behind};
ghost use Rattle.image_compiler.specs.Layout.{bus_row, bus_parts, ascending, kind_number};
ghost use Rattle.image_compiler.specs.Typed.{IsTypedBus};

use crate::parts::{Parts, Row, table_size, write_table};
use crate::texts::{append, reference, sum, text_size, write_text};
use bench_model::{Bus, Kind, Message};
use image_words::layout::{CAN_BUS, J1939_BUS, LIN_BUS, MESSAGE_WORDS, POSITION_SPAN};
use image_words::{group_of, key_number_of};
use std::alloc::{AllocError, Global};

/// How many messages are extended.
fn extended_messages(messages: &[Message]) -> u64
    ensures { result ≡ length (entries_by_group 0 messages.now) }
{
    let mut count = 0;
    for message in messages {
        if message.key.extended {
            count += 1;
        }
    }
    count
}

/// The number of entries of the index by groups.
fn groups(bus: &Bus) -> u64
    ensures { result ≡ length (groups_on bus.now.kind bus.now.database.messages) }
{
    match bus.kind {
        Kind::J1939 => extended_messages(bus.database.messages.items()),
        Kind::Can | Kind::Lin => 0,
    }
}

/// Each message's key with its position.
fn key_entries(alloc: Global, messages: &[Message]) -> Result<Vec<u64>, AllocError>
    ensures { IfOk result (λ entries. entries.items ≡ entries_by_key 0 messages.now) }
{
    let mut entries = Vec::new(alloc);
    let mut position = 0;
    for message in messages {
        entries.push(key_number_of(message.key) * POSITION_SPAN + position)?;
        position += 1;
    }
    Ok(entries)
}

/// Each extended message's group with its position.
fn group_entries(alloc: Global, messages: &[Message]) -> Result<Vec<u64>, AllocError>
    ensures { IfOk result (λ entries. entries.items ≡ entries_by_group 0 messages.now) }
{
    let mut entries = Vec::new(alloc);
    let mut position = 0;
    for message in messages {
        if message.key.extended {
            entries.push(u64::from(group_of(message.key.id)) * POSITION_SPAN + position)?;
        }
        position += 1;
    }
    Ok(entries)
}

/// Numbers in ascending order.
fn write_ascending(out: &mut Vec<u64>, numbers: Vec<u64>) -> Result<(), AllocError>
    ensures { OnOk result (out.new.items ≡ out.old.items ++ ascending numbers.items) }
{
    let mut numbers = numbers;
    numbers.sort_unstable();
    append(out, numbers.as_slice())
}

/// The entries of the index by groups, which only a J1939 bus has.
fn entries_on(alloc: Global, bus: &Bus) -> Result<Vec<u64>, AllocError>
    ensures { IfOk result (λ entries. entries.items ≡ groups_on bus.now.kind bus.now.database.messages) }
{
    match bus.kind {
        Kind::J1939 => group_entries(alloc, bus.database.messages.items()),
        Kind::Can | Kind::Lin => Ok(Vec::new(alloc)),
    }
}

impl Parts for Bus {
    ghost behind = { bus_behind };

    ghost parts = { bus_parts };

    ghost is_typed = { IsTypedBus };

    fn behind(&self) -> Result<u64, AllocError> {
        let messages = self.database.messages.items();
        let table = table_size(MESSAGE_WORDS, messages)?;
        let indexes = sum(messages.len() as u64, groups(self))?;
        let lists = sum(table, indexes)?;
        sum(text_size(&self.name), lists)
    }

    fn write_parts(&self, alloc: Global, out: &mut Vec<u64>, place: u64) -> Result<(), AllocError> {
        let messages = self.database.messages.items();
        let first = sum(place, text_size(&self.name))?;
        write_text(out, &self.name)?;
        write_table(alloc, out, first, MESSAGE_WORDS, messages)?;
        let keys = key_entries(alloc, messages)?;
        write_ascending(out, keys)?;
        let groups = entries_on(alloc, self)?;
        write_ascending(out, groups)
    }
}

impl Row for Bus {
    ghost row_words = { bus_row };

    fn write_row(&self, out: &mut Vec<u64>, place: u64) -> Result<(), AllocError> {
        let kind = match self.kind {
            Kind::Can => CAN_BUS,
            Kind::J1939 => J1939_BUS,
            Kind::Lin => LIN_BUS,
        };
        let list = self.database.messages.items();
        let name = reference(place, &self.name)?;
        let messages = sum(place, text_size(&self.name))?;
        let table = table_size(MESSAGE_WORDS, list)?;
        let keys = sum(messages, table)?;
        let by_group = sum(keys, list.len() as u64)?;
        append(
            out,
            &[
                kind,
                name,
                list.len() as u64,
                messages,
                keys,
                groups(self),
                by_group,
            ],
        )
    }
}
