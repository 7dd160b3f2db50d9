//! A list of values, kept in a vector.

use std::alloc::{AllocError, Global};
use std::marker::Model;

/// A list of values. Contracts see it as the list, whatever room its vector has.
#[derive(Debug, Drop)]
pub struct List<T> {
    items: Vec<T>,
}

impl<T> Model for List<T> {
    ghost use Rattle.std.specs.Prelude.{List};

    ghost Value = { List T };

    ghost view = { λ a. a.items.items };
}

impl<T> List<T> {
    ghost use Rattle.std.specs.Prelude.{◌≡◌};

    /// The list of a vector's values, which takes no memory.
    pub fn of(items: Vec<T>) -> List<T>
        ensures { result ≡ items.items }
    {
        List { items }
    }

    /// The values in order, which takes no memory.
    pub fn items(&self) -> &[T]
        ensures { result.now ≡ self.now }
    {
        self.items.as_slice()
    }
}

impl<T: Copy> List<T> {
    ghost use Rattle.std.specs.Prelude.{◌≡◌, ◌++◌, IfOk};

    /// An equal list.
    pub(crate) fn copy(&self, alloc: Global) -> Result<List<T>, AllocError>
        ensures { IfOk result (λ list. list ≡ self.now) }
    {
        Ok(List {
            items: Vec::from_slice(alloc, self.items.as_slice())?,
        })
    }

    /// The list with these values after its own.
    pub(crate) fn append(self, more: &[T]) -> Result<List<T>, AllocError>
        ensures { IfOk result (λ list. list ≡ self ++ more.now) }
    {
        let List { mut items } = self;
        items.extend_from_slice(more)?;
        Ok(List { items })
    }
}
