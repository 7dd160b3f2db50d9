//! The fourth rule: no signal is a floating point number.

ghost use Rattle.std.specs.Prelude.{◌≡◌, ℕ, List};
ghost use Rattle.bench_model.specs.declared.fault.CheckWhy.TheVariants.{Float};
ghost use Rattle.bench_model.specs.declared.database.Message.{Message};
ghost use Rattle.bench_model.specs.Check.{message_faults, faults_by};
ghost use Rattle.bench_model.specs.Verdict.{IsVerdict};

use crate::refusal::signal_fault;
use crate::{CheckFault, CheckWhy, Message};
use std::alloc::Global;

/// No signal of the message is a floating point number.
fn check_float(alloc: Global, message: &Message) -> Result<(), CheckFault>
    ensures { (ms : List Message) (i : ℕ) → IsVerdict (message_faults Float ms (i, message.now)) result }
{
    for signal in message.signals.items() {
        if signal.float {
            return Err(signal_fault(alloc, CheckWhy::Float, message, signal));
        }
    }
    Ok(())
}

/// Every message keeps the rule.
pub(crate) fn check_floats(alloc: Global, messages: &[Message]) -> Result<(), CheckFault>
    ensures { IsVerdict (faults_by messages.now Float) result }
{
    for message in messages {
        check_float(alloc, message)?;
    }
    Ok(())
}
