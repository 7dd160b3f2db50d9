//! Which databases are valid: five rules, judged one after another.

ghost use Rattle.std.specs.Prelude.{◌≡◌, ◌⊎◌, IfOk, IfErr, IsOkAnd, IsErrOf};
ghost use Rattle.bench_model.specs.declared.fault.CheckFault.{CheckFault};
ghost use Rattle.bench_model.specs.declared.fault.CheckFault.TheVariants as faults;
ghost use Rattle.bench_model.specs.Limits.{IsMadeDatabase};
ghost use Rattle.bench_model.specs.Check.{all_faults, IsFirstFault, IsValid};
ghost use Rattle.bench_model.specs.Verdict.{IsVerdict};

use crate::duplicates::{check_keys, check_names};
use crate::floats::check_floats;
use crate::limits::check_limits;
use crate::sizes::check_sizes;
use crate::{CheckFault, Database, Message, Valid};
use std::alloc::Global;

/// No message breaks a rule, nor does a signal of one.
pub(crate) fn check_messages(alloc: Global, messages: &[Message]) -> Result<(), CheckFault>
    ensures { IsVerdict (all_faults messages.now) result }
{
    check_sizes(alloc, messages)?;
    check_keys(alloc, messages)?;
    check_names(alloc, messages)?;
    check_floats(alloc, messages)?;
    check_limits(alloc, messages)
}

/// The database, where it keeps every rule. Else the fault is of the first rule that is broken, in the order of
/// `CheckWhy`, and within that rule the first in file order, a message's own before those of its signals; too
/// many messages come before every other limit. Of two messages with one key the second is named, and so is the
/// second of two signals with one name.
///
/// Each tree came from `resolve` over the message's signals, each scaling from `Scale::new`, and each label's
/// number is one that raw values may have.
pub fn check(alloc: Global, database: Database) -> Result<Valid, CheckFault>
    requires { IsMadeDatabase database }

    // What is answered is true of the database.
    ensures valid { IfOk result (λ valid. valid.database ≡ database) }
    ensures fault { IfErr result (λ fault. (fault ≡ faults.Memory) ⊎ IsFirstFault database fault) }

    // What is true of it is answered, unless memory runs out.
    ensures every_valid { IsValid database →
        IsOkAnd result (λ valid. valid.database ≡ database) ⊎ IsErrOf result faults.Memory }
    ensures every_fault { (fault : CheckFault) → IsFirstFault database fault →
        IsErrOf result fault ⊎ IsErrOf result faults.Memory }
{
    check_messages(alloc, database.messages.items())?;
    Ok(Valid::of(database))
}
