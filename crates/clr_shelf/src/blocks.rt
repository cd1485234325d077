//! Lists in blocks.
ghost use Rattle.std.specs.Prelude.{◌≡◌, ℕ, ◌+◌, ◌++◌, ◌-◌, ◌*◌, ◌/◌, ◌^◌, ◌<◌, ◌≤◌, [], length};
ghost use Rattle.std.specs.Prelude.{map, slice_index, slice_index_or, slice_set, replicate, take};
ghost use Rattle.std.specs.Prelude.{vec_len};
ghost use Rattle.std.specs.Prelude.{true, false, IfOk, OnOk, OnErr, IsOk, IfSome};
ghost use Rattle.std.specs.List.{insert, remove, slice_range};
ghost use Rattle.std.specs.Fn.{FnReturnsAt};
ghost use Rattle.clr_shelf.specs.Blocks.{IsSpread, HasStarts, joined, parts_of, size_at};
ghost use Rattle.clr_shelf.specs.declared.block.TheConstants.{SIZE};

use crate::balance::{merge, settle};
use crate::block::{Block, SIZE};
use std::alloc::{AllocError, Global};

/// A list whose items are in blocks, one block after another.
///
/// A put and a take move the items of one block, or of two neighbours, and a place is found by
/// halves. No block is more than full, and two neighbours are so full that they could not be one:
/// so half of the blocks, if they were full, would hold all items.
#[derive(Drop)]
pub(crate) struct Blocks<T> {
    // Those that are empty come last.
    blocks: Vec<Block<T>>,
    // How many have items.
    used: usize,
    // How many items come before each block that has any.
    starts: Vec<usize>,
    total: usize,
    ghost spread: { IsSpread SIZE (size_at (parts_of blocks.items)) },
    ghost begun: { HasStarts used starts.items (parts_of blocks.items) },
    ghost ended: { size_at (parts_of blocks.items) used ≡ 0 },
    ghost counted: { total ≡ length (joined (parts_of blocks.items)) },
    ghost held: { total ≤ vec_len blocks / 2 * SIZE },
    ghost bounded: { vec_len blocks / 2 * SIZE < 2 ^ 64 },
}

// Counts how many items come before each block from the one before `touched` up to the first that
// is empty, and returns where that is.
fn count_starts<T: Drop>(starts: &mut Vec<usize>, blocks: &[Block<T>], touched: usize) -> usize
    requires in_range { touched < length blocks.now }
    requires fits { length (joined (parts_of blocks.now)) < 2 ^ 64 }
    requires begun { HasStarts (touched - 1) starts.old.items (parts_of blocks.now) }
    requires begins { slice_index_or starts.old.items (touched - 1) 0
        ≡ length (joined (take (touched - 1) (parts_of blocks.now))) }
    ensures begun { HasStarts result starts.new.items (parts_of blocks.now) }
    ensures ended { size_at (parts_of blocks.now) result ≡ 0 }
{
    let mut used = touched.saturating_sub(1);
    let mut begin = starts[used];
    while used < blocks.len() && blocks[used].len() > 0 {
        starts[used] = begin;
        begin += blocks[used].len();
        used += 1;
    }
    used
}

// Blocks that have nothing.
fn empty_blocks<T: Drop>(alloc: Global, count: usize) -> Result<Vec<Block<T>>, AllocError>
    ensures { IfOk result (λ blocks. parts_of blocks.items ≡ replicate count []) }
{
    let mut blocks = Vec::with_capacity(alloc, count)?;
    for _ in 0..count {
        blocks.push_reserved(Block::new(alloc)?);
    }
    Ok(blocks)
}

// The refusal of more numbers than any memory has room for: they are asked for all the same, so
// that out of memory is only answered where a growth was refused.
fn refusal_of_all(alloc: Global) -> AllocError {
    let mut numbers: Vec<usize> = Vec::new(alloc);
    match numbers.reserve(usize::MAX) {
        Ok(()) => AllocError,
        Err(refused) => refused,
    }
}

// How many pairs of blocks have room for `more` items beside those that are there, if they can.
fn pairs_for(total: usize, more: usize) -> Option<usize>
    ensures room { IfSome result (λ pairs. total + more ≤ pairs * SIZE) }
    ensures fits { IfSome result (λ pairs. pairs * SIZE < 2 ^ 64) }
{
    let pairs = total.checked_add(more)? / SIZE + 1;
    if pairs <= usize::MAX / SIZE {
        Some(pairs)
    } else {
        None
    }
}

impl<T: Drop> Blocks<T> {
    ghost use Rattle.clr_shelf.specs.Items.{items_of, room_of};

    pub(crate) fn new(alloc: Global) -> Self
        ensures { items_of result ≡ [] }
    {
        Blocks {
            blocks: Vec::new(alloc),
            used: 0,
            starts: Vec::new(alloc),
            total: 0,
        }
    }

    pub(crate) fn len(&self) -> usize
        ensures { result ≡ length (items_of self.now) }
    {
        self.total
    }

    pub(crate) fn allocator(&self) -> Global {
        *self.blocks.allocator()
    }

    fn room(&self) -> usize
        ensures { result ≡ room_of self.now }
    {
        self.blocks.len() / 2 * SIZE - self.total
    }

    // The block in which the item at a place is.
    fn block_of(&self, place: usize) -> usize
        requires { place < length (items_of self.now) }
        ensures in_range { result < vec_len self.now.blocks }
        ensures used { result < self.now.used }
        ensures from { slice_index self.now.starts.items result ≤ place }
        ensures to { place < slice_index self.now.starts.items result
            + size_at (parts_of self.now.blocks.items) result }
    {
        let last = self.used - 1;
        if self.starts[last] <= place {
            return last;
        }
        let mut low = 0;
        let mut high = last;
        while low + 1 < high {
            let middle = low + (high - low) / 2;
            if self.starts[middle] <= place {
                low = middle;
            } else {
                high = middle;
            }
        }
        low
    }

    // The block into which an item goes that is put at a place, where there is room.
    fn block_for(&self, place: usize) -> usize
        requires in_range { place ≤ length (items_of self.now) }
        requires room { 0 < room_of self.now }
        ensures spare_after { result + 1 < vec_len self.now.blocks }
        ensures used { 0 < result → result < self.now.used }
        ensures from { slice_index self.now.starts.items result ≤ place }
        ensures to { place ≤ slice_index self.now.starts.items result
            + size_at (parts_of self.now.blocks.items) result }
        ensures spare { size_at (parts_of self.now.blocks.items)
            (vec_len self.now.blocks - 1) ≡ 0 }
    {
        if place == 0 {
            0
        } else {
            self.block_of(place - 1)
        }
    }

    pub(crate) fn at(&self, place: usize) -> &T
        requires { place < length (items_of self.now) }
        ensures { result.now ≡ slice_index_or (items_of self.now) place result.now }
    {
        let k = self.block_of(place);
        self.at_in(k, place)
    }

    // The item at a place that is in a block.
    fn at_in(&self, k: usize, place: usize) -> &T
        requires in_range { k < self.now.used }
        requires from { slice_index self.now.starts.items k ≤ place }
        requires to { place < slice_index self.now.starts.items k
            + size_at (parts_of self.now.blocks.items) k }
        ensures { result.now ≡ slice_index_or (items_of self.now) place result.now }
    {
        self.blocks[k].at(place - self.starts[k])
    }

    /// Where the items end that pass a test, if none that passes comes after one that fails.
    pub(crate) fn partition_point<F: Fn(&T) -> bool>(&self, passes: F) -> usize
        requires { F.IsAlwaysCallable passes }
        ensures in_range { result ≤ length (items_of self.now) }
        ensures before { (k : ℕ) (d : T) → k + 1 ≡ result
            → FnReturnsAt F.Fn passes (slice_index_or (items_of self.now) k d) true }
        ensures after { (d : T) → result < length (items_of self.now)
            → FnReturnsAt F.Fn passes (slice_index_or (items_of self.now) result d) false }
    {
        if self.total == 0 {
            return 0;
        }
        // The last block whose first item passes, or the first block.
        let mut block = 0;
        let mut behind = self.used;
        while block + 1 < behind {
            let k = block + (behind - block) / 2;
            let start = self.starts[k];
            if passes(self.at_in(k, start)) {
                block = k;
            } else {
                behind = k;
            }
        }
        let begin = self.starts[block];
        let mut low = if block == 0 { 0 } else { begin + 1 };
        let mut high = begin + self.blocks[block].len();
        while low < high {
            let middle = low + (high - low) / 2;
            if passes(self.at_in(block, middle)) {
                low = middle + 1;
            } else {
                high = middle;
            }
        }
        low
    }

    /// The items from a place on up to another.
    pub(crate) fn between(&self, start: usize, end: usize) -> Result<Vec<&T>, AllocError>
        requires rises { start ≤ end }
        requires in_range { end ≤ length (items_of self.now) }
        ensures { IfOk result (λ found. map (λ item. item.now) found.items
            ≡ slice_range (items_of self.now) start end) }
    {
        let mut found = Vec::with_capacity(self.allocator(), end - start)?;
        for place in start..end {
            found.push_reserved(self.at(place));
        }
        Ok(found)
    }

    /// Puts the items from a place on up to another after those that were found.
    pub(crate) fn push_between<'a>(
        &'a self,
        start: usize,
        end: usize,
        found: &mut Vec<&'a T>,
    ) -> Result<(), AllocError>
        requires rises { start ≤ end }
        requires in_range { end ≤ length (items_of self.now) }
        ensures { OnOk result (map (λ item. item.now) found.new.items
            ≡ map (λ item. item.now) found.old.items
            ++ slice_range (items_of self.now) start end) }
    {
        for place in start..end {
            found.push(self.at(place))?;
        }
        Ok(())
    }

    /// Makes room for `n` more items. It fails only where the room was less and memory is refused.
    pub(crate) fn reserve(&mut self, n: usize) -> Result<(), AllocError>
        ensures items { items_of self.new ≡ items_of self.old }
        ensures ok { OnOk result ((n ≤ room_of self.new) × (room_of self.old ≤ room_of self.new)) }
        ensures err { OnErr result (room_of self.new ≡ room_of self.old) }
        ensures succeeds { n ≤ room_of self.old → IsOk result }
    {
        if n <= self.room() {
            return Ok(());
        }
        let Some(pairs) = pairs_for(self.total, n) else {
            return Err(refusal_of_all(self.allocator()));
        };
        let more = 2 * pairs - self.blocks.len();
        let mut empty = empty_blocks(self.allocator(), more)?;
        self.blocks.reserve(more)?;
        self.starts.reserve(more)?;
        let Ok(()) = self.blocks.append(&mut empty) else {
            unreachable!()
        };
        let Ok(()) = self.starts.resize(self.blocks.len(), 0) else {
            unreachable!()
        };
        Ok(())
    }

    pub(crate) fn insert(&mut self, place: usize, item: T)
        requires in_range { place ≤ length (items_of self.old) }
        requires room { 0 < room_of self.old }
        ensures items { items_of self.new ≡ insert (items_of self.old) place item }
        ensures room { room_of self.old ≡ room_of self.new + 1 }
    {
        let k = self.block_for(place);
        self.blocks[k].put(place - self.starts[k], item);
        self.total += 1;
        settle(&mut self.blocks, k);
        self.used = count_starts(&mut self.starts, &self.blocks, k);
    }

    pub(crate) fn remove(&mut self, place: usize) -> T
        requires { place < length (items_of self.old) }
        ensures item { result ≡ slice_index_or (items_of self.old) place result }
        ensures items { items_of self.new ≡ remove (items_of self.old) place }
        ensures room { room_of self.new ≡ room_of self.old + 1 }
    {
        let k = self.block_of(place);
        let item = self.blocks[k].take(place - self.starts[k]);
        self.total -= 1;
        merge(&mut self.blocks, k);
        self.used = count_starts(&mut self.starts, &self.blocks, k);
        item
    }

    pub(crate) fn replace(&mut self, place: usize, item: T) -> T
        requires { place < length (items_of self.old) }
        ensures old { result ≡ slice_index_or (items_of self.old) place result }
        ensures items { items_of self.new ≡ slice_set (items_of self.old) place item }
        ensures room { room_of self.new ≡ room_of self.old }
    {
        let k = self.block_of(place);
        self.blocks[k].replace(place - self.starts[k], item)
    }
}
