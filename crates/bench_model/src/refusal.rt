//! The faults that `check` names.

ghost use Rattle.std.specs.Prelude.{◌≡◌, [], ◌∷◌, Some, None};
ghost use Rattle.bench_model.specs.declared.fault.CheckFault.TheVariants.{At};
ghost use Rattle.bench_model.specs.Verdict.{IsFirstOf};

use crate::{CheckFault, CheckWhy, Message, Signal};
use std::alloc::Global;

/// The fault of a message that breaks a rule.
pub(crate) fn message_fault(why: CheckWhy, message: &Message) -> CheckFault
    ensures { result ≡ At why (Some message.now.key) None }
{
    CheckFault::At {
        why,
        message: Some(message.key),
        signal: None,
    }
}

/// The fault of a signal that breaks a rule, with a copy of its name.
pub(crate) fn signal_fault(
    alloc: Global,
    why: CheckWhy,
    message: &Message,
    signal: &Signal,
) -> CheckFault
    ensures { IsFirstOf (At why (Some message.now.key) (Some signal.now.name) ∷ []) result }
{
    match signal.name.copy(alloc) {
        Ok(name) => CheckFault::At {
            why,
            message: Some(message.key),
            signal: Some(name),
        },
        Err(error) => error.into(),
    }
}
