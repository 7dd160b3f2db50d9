//! The plain decoding of a frame: message by message, signal by signal and bit by bit.

ghost use Rattle.std.specs.Prelude.{◌≡◌, ◌<◌, length, IfOk, All};
ghost use Rattle.bench_model.specs.Meaning.{signal_value, raw_values, active_value, active_values, message_meaning, bench_meaning};
ghost use Rattle.bench_model.specs.Check.{IsValid};
ghost use Rattle.bench_model.specs.Decodable.{IsDecodableSignal, IsDecodable};

use crate::coding::{Physical, coded_value};
use crate::matching::matching;
use crate::raw::raw_of;
use crate::{Ask, Bench, Message, Plain, Signal, SignalValue};
use multiplex_tree::List;
use std::alloc::{AllocError, Global};

/// A signal's value in these bytes; none where a bit of it lies past them.
fn value_of(alloc: Global, signal: &Signal, bytes: &[u8]) -> Result<Option<SignalValue>, AllocError>
    requires { IsDecodableSignal signal.now }
    ensures { IfOk result (λ value. value ≡ signal_value bytes.now signal.now) }
{
    let Some(raw) = raw_of(signal, bytes) else {
        return Ok(None);
    };
    let Physical { value, unit, label } = coded_value(alloc, &signal.coding, raw)?;
    Ok(Some(SignalValue {
        name: signal.name.copy(alloc)?,
        raw,
        value,
        unit,
        label,
    }))
}

/// The raw value of each signal, where it is there.
fn raws_of(alloc: Global, signals: &[Signal], bytes: &[u8]) -> Result<Vec<Option<i128>>, AllocError>
    requires { All IsDecodableSignal signals.now }
    ensures { IfOk result (λ raws. raws.items ≡ raw_values bytes.now signals.now) }
{
    let mut raws = Vec::new(alloc);
    for signal in signals {
        raws.push(raw_of(signal, bytes))?;
    }
    Ok(raws)
}

/// The value of the signal at this place, where it is active under these raw values and present.
fn active_value(
    alloc: Global,
    message: &Message,
    raws: &[Option<i128>],
    place: usize,
    signal: &Signal,
    bytes: &[u8],
) -> Result<Option<SignalValue>, AllocError>
    requires message { IsDecodable message.now }
    requires raws { length raws.now ≡ length message.now.signals }
    requires place { place < length message.now.signals }
    requires signal { IsDecodableSignal signal.now }
    ensures { IfOk result (λ value. value ≡ active_value bytes.now message.now.tree.parents raws.now (place, signal.now)) }
{
    if message.tree.active(raws, place) {
        value_of(alloc, signal, bytes)
    } else {
        Ok(None)
    }
}

/// The values of the signals that are active and present.
fn values_of(alloc: Global, message: &Message, bytes: &[u8]) -> Result<Vec<SignalValue>, AllocError>
    requires { IsDecodable message.now }
    ensures { IfOk result (λ values. values.items ≡ active_values bytes.now message.now) }
{
    let signals = message.signals.items();
    let raws = raws_of(alloc, signals, bytes)?;
    let mut values = Vec::new(alloc);
    for (place, signal) in signals.iter().enumerate() {
        if let Some(value) = active_value(alloc, message, raws.as_slice(), place, signal, bytes)? {
            values.push(value)?;
        }
    }
    Ok(values)
}

/// What the bytes mean as this message.
fn message_of(alloc: Global, message: &Message, bytes: &[u8]) -> Result<Plain, AllocError>
    requires { IsDecodable message.now }
    ensures { IfOk result (λ plain. plain ≡ message_meaning bytes.now message.now) }
{
    let signals = values_of(alloc, message, bytes)?;
    Ok(Plain {
        name: message.name.copy(alloc)?,
        signals: List::of(signals),
    })
}

impl Bench {
    /// What bytes mean on a bus, where a message of its database matches: the plain decoding.
    /// `bus` is the bus's place in the bench, whose databases passed `check`.
    pub fn plain(
        &self,
        alloc: Global,
        bus: u32,
        ask: Ask,
        bytes: &[u8],
    ) -> Result<Option<Plain>, AllocError>
        requires bus { bus < length self.now.buses }
        requires valid { All (λ b. IsValid b.database) self.now.buses }
        ensures { IfOk result (λ plain. plain ≡ bench_meaning self.now bus ask bytes.now) }
    {
        let bus = &self.buses.items()[bus as usize];
        let Some(message) = matching(bus.kind, ask, bus.database.messages.items()) else {
            return Ok(None);
        };
        Ok(Some(message_of(alloc, message, bytes)?))
    }
}
