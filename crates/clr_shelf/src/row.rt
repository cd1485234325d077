//! Rows: records of plain data that a key distinguishes.
ghost use Rattle.std.specs.Prelude.{◌≡◌, Bool};
ghost use Rattle.std.specs.Cmp.{IsTotalOrder};
ghost use Rattle.std.specs.Ordering.{is_eq};
ghost use Rattle.std.specs.declared.cmp.Ordering.{Ordering};
ghost use Rattle.std.specs.declared.cmp.Ordering.TheVariants.{Equal};

use std::cmp::Ordering;

/// A record of plain data with a key, which is also in one group.
pub trait Row: Drop {
    /// What distinguishes rows, as a record of fields of the row. Keys are in a total order.
    type Key: Drop;

    /// What gathers the rows that are asked for together. It follows from the key. Groups are in a
    /// total order.
    type Group: Drop;

    ghost key_of: { Self → Self.Key };

    ghost key_cmp: { Self.Key → Self.Key → Ordering };

    ghost group_of: { Self.Key → Self.Group };

    ghost group_cmp: { Self.Group → Self.Group → Ordering };

    ghost is_in: { Self.Group → Self → Bool };

    /// The row's key, made of its fields.
    fn key(&self) -> Self::Key
        ensures { result ≡ key_of self.now };

    /// How the row's key compares to another.
    fn compare_key(&self, key: &Self::Key) -> Ordering
        ensures { result ≡ key_cmp (key_of self.now) key.now };

    /// The group of the rows that have a key.
    fn group_of(key: &Self::Key) -> Self::Group
        ensures { result ≡ group_of key.now };

    /// How the row's group compares to another.
    fn compare_group(&self, group: &Self::Group) -> Ordering
        ensures { result ≡ group_cmp (group_of (key_of self.now)) group.now };

    fn belongs_to(&self, group: &Self::Group) -> bool
        ensures { result ≡ is_in group.now self.now };

    ghost key_order: { IsTotalOrder key_cmp };

    // Keys that tie are one key.
    ghost same_key: { (a b : Self.Key) → key_cmp a b ≡ Equal → a ≡ b };

    ghost group_order: { IsTotalOrder group_cmp };

    // A row is in the group of its key.
    ghost in_one_group: { (group : Self.Group) (row : Self)
        → is_in group row ≡ is_eq (group_cmp (group_of (key_of row)) group) };
}
