//! The first rule: the lengths of messages, and the sizes and starts of signals.

ghost use Rattle.std.specs.Prelude.{◌≡◌, ℕ, ◌&&◌, List, nat_le};
ghost use Rattle.bench_model.specs.declared.fault.CheckWhy.TheVariants.{Size};
ghost use Rattle.bench_model.specs.declared.database.Message.{Message};
ghost use Rattle.bench_model.specs.Limits.{most_bits, last_start};
ghost use Rattle.bench_model.specs.Check.{message_faults, faults_by};
ghost use Rattle.bench_model.specs.Verdict.{IsVerdict};

use crate::refusal::{message_fault, signal_fault};
use crate::{CheckFault, CheckWhy, Message, Signal};
use std::alloc::Global;

/// The longest message: 255 packets of 7 bytes (SAE J1939-21).
const LONGEST_MESSAGE: u32 = 1_785;
/// The most bits of a signal.
pub const MOST_BITS: u32 = 64;
/// The last bit of the longest message.
pub const LAST_START: u32 = 14_279;

/// Whether a signal's size and start are within the limits.
fn is_sized(signal: &Signal) -> bool
    ensures { result ≡
        ((nat_le 1 signal.now.size && nat_le signal.now.size most_bits) && nat_le signal.now.start last_start) }
{
    1 <= signal.size && signal.size <= MOST_BITS && signal.start <= LAST_START
}

/// A message keeps the rule, its own length judged before its signals.
fn check_size(alloc: Global, message: &Message) -> Result<(), CheckFault>
    ensures { (ms : List Message) (i : ℕ) → IsVerdict (message_faults Size ms (i, message.now)) result }
{
    if message.length > LONGEST_MESSAGE {
        return Err(message_fault(CheckWhy::Size, message));
    }
    for signal in message.signals.items() {
        if !is_sized(signal) {
            return Err(signal_fault(alloc, CheckWhy::Size, message, signal));
        }
    }
    Ok(())
}

/// Every message keeps the rule.
pub(crate) fn check_sizes(alloc: Global, messages: &[Message]) -> Result<(), CheckFault>
    ensures { IsVerdict (faults_by messages.now Size) result }
{
    for message in messages {
        check_size(alloc, message)?;
    }
    Ok(())
}
