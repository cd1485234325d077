//! Moves of items between neighbouring blocks, after which each is filled as it has to be.
ghost use Rattle.std.specs.Prelude.{◌≡◌, ℕ, ◌+◌, ◌-◌, ◌<◌, ◌≤◌, vec_len};
ghost use Rattle.clr_shelf.specs.Blocks.{IsSpread, IsCrowded, IsThinned, IsMove, IsJoin};
ghost use Rattle.clr_shelf.specs.Blocks.{joined, parts_of, size_at};

use crate::block::{Block, SIZE};

// Gives the first item of a block to the end of the block before it, which is at `k`.
fn move_left<T: Drop>(blocks: &mut Vec<Block<T>>, k: usize)
    requires in_range { k + 1 < vec_len blocks.old }
    requires given { 0 < size_at (parts_of blocks.old.items) (k + 1) }
    requires room { size_at (parts_of blocks.old.items) k < SIZE }
    ensures len { vec_len blocks.new ≡ vec_len blocks.old }
    ensures items { joined (parts_of blocks.new.items) ≡ joined (parts_of blocks.old.items) }
    ensures sizes { IsMove (k + 1) k (size_at (parts_of blocks.old.items))
        (size_at (parts_of blocks.new.items)) }
{
    let item = blocks[k + 1].take(0);
    let end = blocks[k].len();
    blocks[k].put(end, item);
}

// Gives the last item of the block at `k` to the front of the next.
fn move_right<T: Drop>(blocks: &mut Vec<Block<T>>, k: usize)
    requires in_range { k + 1 < vec_len blocks.old }
    requires given { 0 < size_at (parts_of blocks.old.items) k }
    requires room { size_at (parts_of blocks.old.items) (k + 1) < SIZE }
    ensures len { vec_len blocks.new ≡ vec_len blocks.old }
    ensures items { joined (parts_of blocks.new.items) ≡ joined (parts_of blocks.old.items) }
    ensures sizes { IsMove k (k + 1) (size_at (parts_of blocks.old.items))
        (size_at (parts_of blocks.new.items)) }
{
    let last = blocks[k].len() - 1;
    let item = blocks[k].take(last);
    blocks[k + 1].put(0, item);
}

// Gives half of the block at `k` to the last block, which is empty and goes next to it.
fn split<T: Drop>(blocks: &mut Vec<Block<T>>, k: usize)
    requires in_range { k + 1 < vec_len blocks.old }
    requires full { size_at (parts_of blocks.old.items) k ≡ SIZE + 1 }
    requires spare { size_at (parts_of blocks.old.items) (vec_len blocks.old - 1) ≡ 0 }
    ensures len { vec_len blocks.new ≡ vec_len blocks.old }
    ensures items { joined (parts_of blocks.new.items) ≡ joined (parts_of blocks.old.items) }
    ensures sizes { IsJoin k (size_at (parts_of blocks.new.items))
        (size_at (parts_of blocks.old.items)) }
    ensures left { 0 < size_at (parts_of blocks.new.items) k }
    ensures given { 0 < size_at (parts_of blocks.new.items) (k + 1) }
{
    let mut spare = blocks.take_last();
    blocks[k].part(SIZE / 2, &mut spare);
    let Ok(()) = blocks.insert(k + 1, spare) else {
        unreachable!()
    };
}

// Gives all items of a block to the block before it, which is at `k`. The empty one goes last.
fn join<T: Drop>(blocks: &mut Vec<Block<T>>, k: usize)
    requires in_range { k + 1 < vec_len blocks.old }
    requires room { size_at (parts_of blocks.old.items) k
        + size_at (parts_of blocks.old.items) (k + 1) ≤ SIZE }
    ensures len { vec_len blocks.new ≡ vec_len blocks.old }
    ensures items { joined (parts_of blocks.new.items) ≡ joined (parts_of blocks.old.items) }
    ensures sizes { IsJoin k (size_at (parts_of blocks.old.items))
        (size_at (parts_of blocks.new.items)) }
{
    let mut next = blocks.remove(k + 1);
    blocks[k].append(&mut next);
    blocks.push_reserved(next);
}

/// Spreads the items of a block that may have one too many.
///
/// The next block is asked first: after the last one that has items it is empty, so items that are
/// put in their order move no others.
pub(crate) fn settle<T: Drop>(blocks: &mut Vec<Block<T>>, k: usize)
    requires in_range { k + 1 < vec_len blocks.old }
    requires spare { size_at (parts_of blocks.old.items) (vec_len blocks.old - 1) ≡ 0 }
    requires crowded { IsCrowded SIZE k (size_at (parts_of blocks.old.items)) }
    ensures len { vec_len blocks.new ≡ vec_len blocks.old }
    ensures items { joined (parts_of blocks.new.items) ≡ joined (parts_of blocks.old.items) }
    ensures spread { IsSpread SIZE (size_at (parts_of blocks.new.items)) }
    ensures before { (j : ℕ) → j + 1 < k → size_at (parts_of blocks.new.items) j
        ≡ size_at (parts_of blocks.old.items) j }
{
    if blocks[k].len() <= SIZE {
        return;
    }
    if blocks[k + 1].len() < SIZE {
        move_right(blocks, k);
    } else if k > 0 && blocks[k - 1].len() < SIZE {
        move_left(blocks, k - 1);
    } else {
        split(blocks, k);
    }
}

/// Joins a block that may have one item too few with a neighbour.
pub(crate) fn merge<T: Drop>(blocks: &mut Vec<Block<T>>, k: usize)
    requires in_range { k < vec_len blocks.old }
    requires thinned { IsThinned SIZE k (size_at (parts_of blocks.old.items)) }
    ensures len { vec_len blocks.new ≡ vec_len blocks.old }
    ensures items { joined (parts_of blocks.new.items) ≡ joined (parts_of blocks.old.items) }
    ensures spread { IsSpread SIZE (size_at (parts_of blocks.new.items)) }
    ensures before { (j : ℕ) → j + 1 < k → size_at (parts_of blocks.new.items) j
        ≡ size_at (parts_of blocks.old.items) j }
{
    if k > 0 && blocks[k - 1].len() + blocks[k].len() <= SIZE {
        join(blocks, k - 1);
    } else if k + 1 < blocks.len() && blocks[k].len() + blocks[k + 1].len() <= SIZE {
        join(blocks, k);
    }
}
