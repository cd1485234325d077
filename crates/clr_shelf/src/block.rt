//! Blocks: neighbouring items of a list.
ghost use Rattle.std.specs.Prelude.{◌≡◌, ◌+◌, ◌<◌, ◌≤◌, ◌++◌, [], length, vec_capacity, IfOk};
ghost use Rattle.std.specs.Prelude.{slice_index_or, slice_set};
ghost use Rattle.std.specs.List.{insert, remove};
ghost use Rattle.clr_shelf.specs.declared.block.TheConstants.{SIZE};

use std::alloc::{AllocError, Global};
use std::mem;

/// How many items a block keeps at most.
pub(crate) const SIZE: usize = 256;

/// Neighbouring items of a list, with memory for one more than a block keeps.
#[derive(Drop)]
pub(crate) struct Block<T> {
    items: Vec<T>,
    ghost roomy: { SIZE < vec_capacity items },
}

impl<T: Drop> Block<T> {
    pub(crate) fn new(alloc: Global) -> Result<Self, AllocError>
        ensures { IfOk result (λ block. block.items.items ≡ []) }
    {
        let items = Vec::with_capacity(alloc, SIZE + 1)?;
        Ok(Block { items })
    }

    pub(crate) fn len(&self) -> usize
        ensures { result ≡ length self.now.items.items }
    {
        self.items.len()
    }

    pub(crate) fn at(&self, place: usize) -> &T
        requires { place < length self.now.items.items }
        ensures { result.now ≡ slice_index_or self.now.items.items place result.now }
    {
        &self.items[place]
    }

    pub(crate) fn put(&mut self, place: usize, item: T)
        requires in_range { place ≤ length self.old.items.items }
        requires room { length self.old.items.items ≤ SIZE }
        ensures { self.new.items.items ≡ insert self.old.items.items place item }
    {
        let Ok(()) = self.items.insert(place, item) else {
            unreachable!()
        };
    }

    pub(crate) fn take(&mut self, place: usize) -> T
        requires { place < length self.old.items.items }
        ensures item { result ≡ slice_index_or self.old.items.items place result }
        ensures items { self.new.items.items ≡ remove self.old.items.items place }
    {
        self.items.remove(place)
    }

    pub(crate) fn replace(&mut self, place: usize, item: T) -> T
        requires { place < length self.old.items.items }
        ensures old { result ≡ slice_index_or self.old.items.items place result }
        ensures items { self.new.items.items ≡ slice_set self.old.items.items place item }
    {
        mem::replace(&mut self.items[place], item)
    }

    /// Takes all items of another block to the end.
    pub(crate) fn append(&mut self, other: &mut Block<T>)
        requires { length self.old.items.items + length other.old.items.items ≤ SIZE + 1 }
        ensures items { self.new.items.items ≡ self.old.items.items ++ other.old.items.items }
        ensures emptied { other.new.items.items ≡ [] }
    {
        let Ok(()) = self.items.append(&mut other.items) else {
            unreachable!()
        };
    }

    /// Gives the items from a place on to an empty block.
    pub(crate) fn part(&mut self, place: usize, other: &mut Block<T>)
        requires in_range { place ≤ length self.old.items.items }
        requires room { length self.old.items.items ≤ SIZE + 1 }
        requires empty { other.old.items.items ≡ [] }
        ensures kept { length self.new.items.items ≡ place }
        ensures items { self.new.items.items ++ other.new.items.items ≡ self.old.items.items }
    {
        while self.len() > place {
            let last = self.take(self.len() - 1);
            other.put(0, last);
        }
    }
}
