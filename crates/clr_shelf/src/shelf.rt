//! Shelves: finite maps from a key to its row.
ghost use Rattle.std.specs.Prelude.{◌≡◌, ℕ, ◌+◌, ◌++◌, ◌<◌, ◌≤◌, List, [], Option, Some, length};
ghost use Rattle.std.specs.Prelude.{filter, map, slice_get, IsTrue, IsOk, OnOk, OnErr, IfOk, OnSome};
ghost use Rattle.std.specs.Prelude.{IfNone, option_copied};
ghost use Rattle.std.specs.List.{flat_map, last_or};
ghost use Rattle.std.specs.List.Sorted.{IsPermutation, IsStrictlySortedBy};
ghost use Rattle.clr_shelf.specs.Rows.{in_key_order, row_of, with_row, without_row};

use crate::row::Row;
use std::alloc::{AllocError, Global};

/// A finite map from a key to its row.
///
/// Only `reserve`, `group` and `push_groups` ask for memory, and want of it is their only error.
pub trait Shelf<R: Row>: Drop {
    // The rows in key order, one row a key.
    ghost rows: { Self → List R };

    // The same rows in the order of their places.
    ghost places: { Self → List R };

    // How many rows may be put before `reserve` is called again.
    ghost room: { Self → ℕ };

    fn empty(alloc: Global) -> Self
        ensures { rows result ≡ [] };

    fn len(&self) -> usize
        ensures rows { result ≡ length (rows self.now) }
        ensures places { result ≡ length (places self.now) };

    fn get(&self, key: &R::Key) -> Option<&R>
        ensures { option_copied result ≡ row_of R.key_cmp R.key_of key.now (rows self.now) };

    /// The row at a place; nothing from `len` on. Each row is at one place below `len`, until
    /// the next put or take.
    fn at(&self, place: usize) -> Option<&R>
        ensures { option_copied result ≡ slice_get (places self.now) place };

    /// The rows of a group, in key order.
    fn group(&self, group: &R::Group) -> Result<Vec<&R>, AllocError>
        ensures { IfOk result (λ found. map (λ row. row.now) found.items
            ≡ filter (R.is_in group.now) (rows self.now)) };

    /// Puts the rows of these groups after those that were found, group by group, and of each in
    /// key order. It asks for memory where there is no room for them.
    fn push_groups<'a>(
        &'a self,
        groups: &[R::Group],
        found: &mut Vec<&'a R>,
    ) -> Result<(), AllocError>
        requires { IsStrictlySortedBy R.group_cmp groups.now }
        ensures { OnOk result (map (λ row. row.now) found.new.items
            ≡ map (λ row. row.now) found.old.items
            ++ flat_map (λ group. filter (R.is_in group) (rows self.now)) groups.now) };

    /// The last row of a group in key order, if it has one.
    fn last(&self, group: &R::Group) -> Option<&R>
        ensures { option_copied result
            ≡ last_or None (filter (R.is_in group.now) (rows self.now)) };

    /// Makes room for `n` puts. It fails only where the room was less and memory is refused.
    fn reserve(&mut self, n: usize) -> Result<(), AllocError>
        ensures rows { rows self.new ≡ rows self.old }
        ensures places { places self.new ≡ places self.old }
        ensures ok { OnOk result ((n ≤ room self.new) × (room self.old ≤ room self.new)) }
        ensures err { OnErr result (room self.new ≡ room self.old) }
        ensures succeeds { n ≤ room self.old → IsOk result };

    /// Puts a row in place of the row of its key, if there is one.
    fn put(&mut self, row: R)
        requires { 0 < room self.old }
        ensures rows { rows self.new ≡ with_row R.key_cmp R.key_of row (rows self.old) }
        ensures room { room self.old ≤ room self.new + 1 };

    /// Puts a row in place of the row of its key, and gives that back. Without such a row nothing
    /// changes.
    ///
    /// It takes no room, and moves no other row.
    fn replace(&mut self, row: R) -> Option<R>
        ensures given { result ≡ row_of R.key_cmp R.key_of (R.key_of row) (rows self.old) }
        ensures rows { OnSome result
            (rows self.new ≡ with_row R.key_cmp R.key_of row (rows self.old)) }
        ensures missing { IfNone result ((rows self.new ≡ rows self.old)
            × (places self.new ≡ places self.old)) }
        ensures room { room self.new ≡ room self.old };

    /// Takes the row of a key out, which leaves room for one more.
    fn take(&mut self, key: &R::Key) -> Option<R>
        ensures given { result ≡ row_of R.key_cmp R.key_of key.now (rows self.old) }
        ensures rows { rows self.new ≡ without_row R.key_cmp R.key_of key.now (rows self.old) }
        ensures room { OnSome result (room self.old + 1 ≤ room self.new) }
        ensures missing { IfNone result ((room self.new ≡ room self.old)
            × (places self.new ≡ places self.old)) };

    ghost in_order: { (shelf : Self) → IsTrue (in_key_order R.key_cmp R.key_of (rows shelf)) };

    ghost each_once: { (shelf : Self) → IsPermutation (rows shelf) (places shelf) };
}
