//! The second and the third rule: no two messages have one key, and no two signals of a message one name. The second
//! of two is named.

ghost use Rattle.std.specs.Prelude.{◌≡◌, ℕ, ◌||◌, List, not, IfOk, OnOk};
ghost use Rattle.bench_model.specs.declared.fault.CheckWhy.TheVariants.{DuplicateMessage, DuplicateSignal};
ghost use Rattle.bench_model.specs.declared.database.Key.{Key};
ghost use Rattle.bench_model.specs.declared.database.Message.{Message};
ghost use Rattle.bench_model.specs.Meaning.{has_key};
ghost use Rattle.bench_model.specs.Check.{has_name, message_faults, faults_by};
ghost use Rattle.bench_model.specs.Verdict.{IsVerdict};
ghost use Rattle.bench_model.specs.Seen.{is_key_seen, is_name_seen};

use crate::refusal::{message_fault, signal_fault};
use crate::{CheckFault, CheckWhy, Message, Signal};
use std::alloc::{AllocError, Global};
use std::collections::BTreeSet;

/// Adds a message's key to those seen. Whether it is new.
fn add_key(seen: &mut BTreeSet<(bool, u32)>, message: &Message) -> Result<bool, AllocError>
    ensures new { IfOk result (λ new. new ≡ not (is_key_seen seen.old message.now.key)) }
    ensures added { OnOk result ((key : Key) →
        is_key_seen seen.new key ≡ (is_key_seen seen.old key || has_key key message.now)) }
{
    Ok(seen.insert((message.key.extended, message.key.id))?)
}

/// Adds a signal's name to those seen. Whether it is new.
fn add_name<'a>(seen: &mut BTreeSet<&'a [u8]>, signal: &'a Signal) -> Result<bool, AllocError>
    ensures new { IfOk result (λ new. new ≡ not (is_name_seen seen.old signal.now.name)) }
    ensures added { OnOk result ((name : List ℕ) →
        is_name_seen seen.new name ≡ (is_name_seen seen.old name || has_name name signal.now)) }
{
    Ok(seen.insert(signal.name.bytes())?)
}

/// No message has the key of one before it.
pub(crate) fn check_keys(alloc: Global, messages: &[Message]) -> Result<(), CheckFault>
    ensures { IsVerdict (faults_by messages.now DuplicateMessage) result }
{
    let mut seen = BTreeSet::new(alloc);
    for message in messages {
        if !add_key(&mut seen, message)? {
            return Err(message_fault(CheckWhy::DuplicateMessage, message));
        }
    }
    Ok(())
}

/// No signal of the message has the name of one before it.
fn check_names_of(alloc: Global, message: &Message) -> Result<(), CheckFault>
    ensures { (ms : List Message) (i : ℕ) →
        IsVerdict (message_faults DuplicateSignal ms (i, message.now)) result }
{
    let mut seen = BTreeSet::new(alloc);
    for signal in message.signals.items() {
        if !add_name(&mut seen, signal)? {
            return Err(signal_fault(alloc, CheckWhy::DuplicateSignal, message, signal));
        }
    }
    Ok(())
}

/// Every message keeps the rule of names.
pub(crate) fn check_names(alloc: Global, messages: &[Message]) -> Result<(), CheckFault>
    ensures { IsVerdict (faults_by messages.now DuplicateSignal) result }
{
    for message in messages {
        check_names_of(alloc, message)?;
    }
    Ok(())
}
