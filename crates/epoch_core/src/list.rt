//! A list of values, kept in a vector.

use std::alloc::AllocError;
use std::marker::Model;

/// A list of values. Contracts see it as the list, whatever room its vector has.
#[derive(Debug, Drop)]
pub struct List<T> {
    items: Vec<T>,
}

impl<T> Model for List<T> {
    ghost use Rattle.std.specs.Prelude.{List};

    ghost Value = { List T };

    ghost view = { λ a. a.items.items };
}

ghost use Rattle.std.specs.Prelude.{◌≡◌, ◌<◌, ◌≤◌, ◌++◌, ◌∷◌, [], length, take, replicate, slice_set, slice_index_or, false, IfOk, OnOk, OnErr};
ghost use Rattle.epoch_core.specs.Steps.{stored};

impl<T> List<T> {
    /// The list of a vector's values, which takes no memory.
    pub fn of(items: Vec<T>) -> List<T>
        ensures { result ≡ items.items }
    {
        List { items }
    }

    /// The values in order, which takes no memory.
    pub fn items(&self) -> &[T]
        ensures { result.now ≡ self.now }
    {
        self.items.as_slice()
    }

    /// Adds a value at the end.
    pub(crate) fn push(&mut self, value: T) -> Result<(), AllocError>
    where
        T: Drop,
        ensures ok { OnOk result (self.new ≡ self.old ++ value ∷ []) }
        ensures err { OnErr result (self.new ≡ self.old) }
    {
        match self.items.push(value) {
            Ok(()) => Ok(()),
            Err(_) => Err(AllocError),
        }
    }

    /// Replaces a value.
    pub(crate) fn set(&mut self, index: usize, value: T)
    where
        T: Drop,
        requires { index < length self.old }
        ensures { self.new ≡ slice_set self.old index value }
    {
        self.items[index] = value;
    }
}

impl List<u64> {
    /// A copy of the first values.
    pub(crate) fn prefix(&self, end: usize) -> Result<List<u64>, AllocError>
        requires { end ≤ length self.now }
        ensures { IfOk result (λ list. list ≡ take end self.now) }
    {
        let items = Vec::from_slice(*self.items.allocator(), &self.items.as_slice()[..end])?;
        Ok(List { items })
    }

    /// Stores a value, or adds it where it is stored at the end.
    pub(crate) fn store(&mut self, place: usize, value: u64) -> Result<(), AllocError>
        requires { place ≤ length self.old }
        ensures ok { OnOk result (self.new ≡ stored self.old place value) }
        ensures err { OnErr result (self.new ≡ self.old) }
        ensures grows { OnErr result (place ≡ length self.old) }
    {
        if place == self.items.len() {
            return self.push(value);
        }
        self.set(place, value);
        Ok(())
    }
}

impl List<List<u64>> {
    /// A copy of the first values of one of the lists.
    pub(crate) fn prefix_in(&self, index: usize, end: usize) -> Result<List<u64>, AllocError>
        requires outer { index < length self.now }
        requires inner { end ≤ length (slice_index_or self.now index []) }
        ensures { IfOk result (λ list. list ≡ take end (slice_index_or self.now index [])) }
    {
        let list = &self.items[index];
        list.prefix(end)
    }

    /// Stores a value in one of the lists, or adds it where it is stored at that list's end.
    pub(crate) fn store_in(
        &mut self,
        index: usize,
        place: usize,
        value: u64,
    ) -> Result<(), AllocError>
        requires outer { index < length self.old }
        requires inner { place ≤ length (slice_index_or self.old index []) }
        ensures ok { OnOk result (self.new ≡ slice_set self.old index (stored (slice_index_or self.old index []) place value)) }
        ensures err { OnErr result (self.new ≡ self.old) }
        ensures grows { OnErr result (place ≡ length (slice_index_or self.old index [])) }
    {
        let list = &mut self.items[index];
        list.store(place, value)
    }
}

impl List<bool> {
    /// Makes each value false.
    pub(crate) fn clear(&mut self)
        ensures { self.new ≡ replicate (length self.old) false }
    {
        self.items.fill(false);
    }
}

impl List<List<bool>> {
    /// Replaces a value of one of the lists.
    pub(crate) fn set_in(&mut self, index: usize, inner: usize, value: bool)
        requires outer { index < length self.old }
        requires inner { inner < length (slice_index_or self.old index []) }
        ensures { self.new ≡ slice_set self.old index (slice_set (slice_index_or self.old index []) inner value) }
    {
        let list = &mut self.items[index];
        list.set(inner, value);
    }

    /// Makes each value of one of the lists false.
    pub(crate) fn clear_in(&mut self, index: usize)
        requires { index < length self.old }
        ensures { self.new ≡ slice_set self.old index (replicate (length (slice_index_or self.old index [])) false) }
    {
        let list = &mut self.items[index];
        list.clear();
    }
}
