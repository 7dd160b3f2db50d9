//! The first value of each name, by an ordered map.

ghost use Rattle.std.specs.Prelude.{◌≡◌, [], ◌∷◌, Some, OnOk};
ghost use Rattle.ldf_grammar.specs.Lookup.{value_at, or_else, Adds};

use std::alloc::AllocError;
use std::collections::BTreeMap;

/// The first value of each name.
pub(crate) type Firsts<'a, T> = BTreeMap<&'a [u8], T>;

/// The value that is there, or else this one.
fn first_value<T: Copy>(there: Option<T>, value: T) -> T
    ensures { Some result ≡ or_else there (Some value) }
{
    match there {
        Some(first) => first,
        None => value,
    }
}

/// A further value of a name, behind those that are there.
pub(crate) fn add_value<'a, T: Copy>(
    firsts: &mut Firsts<'a, T>,
    name: &'a [u8],
    value: T,
) -> Result<(), AllocError>
    ensures { OnOk result (Adds firsts.old firsts.new ((name.now, value) ∷ [])) }
{
    let first = first_value(value_of(firsts, name), value);
    firsts.insert(name, first)?;
    Ok(())
}

/// The first value of the name.
pub(crate) fn value_of<'a, T: Copy>(firsts: &Firsts<'a, T>, name: &'a [u8]) -> Option<T>
    ensures { result ≡ value_at firsts.now name.now }
{
    firsts.get(&name).copied()
}
