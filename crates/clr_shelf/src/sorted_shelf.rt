//! A shelf over a list of rows by group and then key.
ghost use Rattle.std.specs.Prelude.{◌≡◌, ◌≤◌, ◌+◌, ℕ, true, false, length, map, filter};
ghost use Rattle.std.specs.Prelude.{IfOk, IsTrue, get_or};
ghost use Rattle.std.specs.List.{flat_map};
ghost use Rattle.std.specs.List.Sorted.{IsStrictlySortedBy};
ghost use Rattle.std.specs.Prelude.{IfErr};
ghost use Rattle.std.specs.List.{slice_range};
ghost use Rattle.std.specs.List.Sorted.{IsPartitionPoint};
ghost use Rattle.std.specs.Ordering.{is_lt, is_le};
ghost use Rattle.clr_shelf.specs.ByKey.{rows_by_key, IsPermutation-rows_by_key};
ghost use Rattle.clr_shelf.specs.Items.{items_of, room_of};
ghost use Rattle.clr_shelf.specs.Places.{IsPlaceOf, IsGapFor, place_cmp};
ghost use Rattle.clr_shelf.specs.Rows.{in_key_order};

use crate::blocks::Blocks;
use crate::row::Row;
use crate::shelf::Shelf;
use std::alloc::{AllocError, Global};
use std::cmp::Ordering;
use std::ops::Range;

/// Rows in blocks, by group and then key. A key, a group and a place are looked up by halves.
///
/// A put and a take move the rows of one block, or of two neighbours, and no others.
#[derive(Drop)]
pub struct SortedShelf<R: Row> {
    list: Blocks<R>,
    ghost in_place: { IsTrue (in_key_order
        (place_cmp R.key_cmp R.group_of R.group_cmp) R.key_of (items_of list)) },
    ghost in_order: { IsTrue (in_key_order
        R.key_cmp R.key_of (rows_by_key R.key_cmp R.key_of (items_of list))) },
}

impl<R: Row> SortedShelf<R> {
    // Where the row of a key is, or where it would go.
    fn place_of(&self, key: &R::Key) -> Result<usize, usize>
        ensures found { IfOk result
            (IsPlaceOf (place_cmp R.key_cmp R.group_of R.group_cmp) R.key_of key.now
            (items_of self.now.list)) }
        ensures absent { IfErr result
            (IsGapFor (place_cmp R.key_cmp R.group_of R.group_cmp) R.key_of key.now
            (items_of self.now.list)) }
    {
        let group = R::group_of(key);
        let place = self.list.partition_point(|row| row
            .compare_group(&group)
            .then(row.compare_key(key))
            .is_lt());
        if place == self.list.len() {
            return Err(place);
        }
        let row = self.list.at(place);
        if row.compare_group(&group).then(row.compare_key(key)).is_eq() {
            Ok(place)
        } else {
            Err(place)
        }
    }

    // Whether there are rows, all of lower keys.
    fn ends_below(&self, key: &R::Key) -> bool
        ensures { IsTrue result
            → IsGapFor (place_cmp R.key_cmp R.group_of R.group_cmp) R.key_of key.now
            (items_of self.now.list) (length (items_of self.now.list)) }
    {
        let len = self.list.len();
        if len == 0 {
            return false;
        }
        let group = R::group_of(key);
        let row = self.list.at(len - 1);
        row.compare_group(&group).then(row.compare_key(key)).is_lt()
    }

    // The same as `place_of`, quicker where the key is above those of all rows.
    fn place_to_put(&self, key: &R::Key) -> Result<usize, usize>
        ensures found { IfOk result
            (IsPlaceOf (place_cmp R.key_cmp R.group_of R.group_cmp) R.key_of key.now
            (items_of self.now.list)) }
        ensures absent { IfErr result
            (IsGapFor (place_cmp R.key_cmp R.group_of R.group_cmp) R.key_of key.now
            (items_of self.now.list)) }
    {
        if self.ends_below(key) {
            return Err(self.list.len());
        }
        self.place_of(key)
    }

    // Where the rows of a group begin, or would.
    fn start_of(&self, group: &R::Group) -> usize
        ensures in_range { result ≤ length (items_of self.now.list) }
        ensures parts { IsPartitionPoint
            (λ row. is_lt (R.group_cmp (R.group_of (R.key_of row)) group.now)
            ≡ true) (λ row. is_lt (R.group_cmp (R.group_of (R.key_of row)) group.now)
            ≡ false) (items_of self.now.list) result }
    {
        self.list
            .partition_point(|row| row.compare_group(group).is_lt())
    }

    // Where the rows of a group end, or would.
    fn end_of(&self, group: &R::Group) -> usize
        ensures in_range { result ≤ length (items_of self.now.list) }
        ensures parts { IsPartitionPoint
            (λ row. is_le (R.group_cmp (R.group_of (R.key_of row)) group.now)
            ≡ true) (λ row. is_le (R.group_cmp (R.group_of (R.key_of row)) group.now)
            ≡ false) (items_of self.now.list) result }
    {
        self.list
            .partition_point(|row| row.compare_group(group).is_le())
    }

    // Where the rows of a group end, or would, if the row before a place is in it. Nothing is
    // looked up where the row at the place is above the group.
    fn end_after(&self, group: &R::Group, place: usize) -> usize
        requires in_range { place ≤ length (items_of self.now.list) }
        requires before { (k : ℕ) (d : R) → k + 1 ≡ place
            → is_le (R.group_cmp (R.group_of (R.key_of (get_or (items_of self.now.list) k d)))
            group.now) ≡ true }
        ensures in_range { result ≤ length (items_of self.now.list) }
        ensures parts { IsPartitionPoint
            (λ row. is_le (R.group_cmp (R.group_of (R.key_of row)) group.now)
            ≡ true) (λ row. is_le (R.group_cmp (R.group_of (R.key_of row)) group.now)
            ≡ false) (items_of self.now.list) result }
    {
        if place == self.list.len() {
            return place;
        }
        let row = self.list.at(place);
        if row.compare_group(group).is_le() {
            self.end_of(group)
        } else {
            place
        }
    }

    // Where the rows of a group end that begin at a place, or would. Nothing is looked up where no
    // row of the group is there, or one.
    fn end_from(&self, group: &R::Group, start: usize) -> usize
        requires in_range { start ≤ length (items_of self.now.list) }
        requires parts { IsPartitionPoint
            (λ row. is_lt (R.group_cmp (R.group_of (R.key_of row)) group.now)
            ≡ true) (λ row. is_lt (R.group_cmp (R.group_of (R.key_of row)) group.now)
            ≡ false) (items_of self.now.list) start }
        ensures in_range { result ≤ length (items_of self.now.list) }
        ensures parts { IsPartitionPoint
            (λ row. is_le (R.group_cmp (R.group_of (R.key_of row)) group.now)
            ≡ true) (λ row. is_le (R.group_cmp (R.group_of (R.key_of row)) group.now)
            ≡ false) (items_of self.now.list) result }
    {
        if start == self.list.len() {
            return start;
        }
        let row = self.list.at(start);
        if row.compare_group(group).is_eq() {
            self.end_after(group, start + 1)
        } else {
            start
        }
    }

    // The places of a group's rows.
    fn places_of(&self, group: &R::Group) -> Range<usize>
        ensures run { slice_range (items_of self.now.list) result.start result.end
            ≡ filter (R.is_in group.now) (rows_by_key R.key_cmp R.key_of (items_of self.now.list)) }
        ensures rises { result.start ≤ result.end }
        ensures in_range { result.end ≤ length (items_of self.now.list) }
        ensures before { (k : ℕ) (d : R) → k + 1 ≡ result.end
            → is_le (R.group_cmp (R.group_of (R.key_of (get_or (items_of self.now.list) k d)))
            group.now) ≡ true }
    {
        let start = self.start_of(group);
        let end = self.end_from(group, start);
        start..end
    }

    // The places of a group's rows, if the row before a place is below the group. The group is
    // looked up only if the row at the place is below it too.
    fn places_from(&self, group: &R::Group, place: usize) -> Range<usize>
        requires in_range { place ≤ length (items_of self.now.list) }
        requires before { (k : ℕ) (d : R) → k + 1 ≡ place
            → is_lt (R.group_cmp (R.group_of (R.key_of (get_or (items_of self.now.list) k d)))
            group.now) ≡ true }
        ensures run { slice_range (items_of self.now.list) result.start result.end
            ≡ filter (R.is_in group.now) (rows_by_key R.key_cmp R.key_of (items_of self.now.list)) }
        ensures rises { result.start ≤ result.end }
        ensures in_range { result.end ≤ length (items_of self.now.list) }
        ensures before { (k : ℕ) (d : R) → k + 1 ≡ result.end
            → is_le (R.group_cmp (R.group_of (R.key_of (get_or (items_of self.now.list) k d)))
            group.now) ≡ true }
    {
        if place == self.list.len() {
            return place..place;
        }
        match self.list.at(place).compare_group(group) {
            Ordering::Less => self.places_of(group),
            Ordering::Equal => place..self.end_after(group, place + 1),
            Ordering::Greater => place..place,
        }
    }
}

impl<R: Row> Shelf<R> for SortedShelf<R> {
    ghost rows = { λ shelf. rows_by_key R.key_cmp R.key_of (items_of shelf.list) };

    ghost places = { λ shelf. items_of shelf.list };

    ghost room = { λ shelf. room_of shelf.list };

    fn empty(alloc: Global) -> Self {
        SortedShelf {
            list: Blocks::new(alloc),
        }
    }

    fn len(&self) -> usize {
        self.list.len()
    }

    fn get(&self, key: &R::Key) -> Option<&R> {
        match self.place_of(key) {
            Ok(place) => Some(self.list.at(place)),
            Err(_) => None,
        }
    }

    fn at(&self, place: usize) -> Option<&R> {
        if place < self.list.len() {
            Some(self.list.at(place))
        } else {
            None
        }
    }

    fn group(&self, group: &R::Group) -> Result<Vec<&R>, AllocError> {
        let run = self.places_of(group);
        self.list.between(run.start, run.end)
    }

    fn push_groups<'a>(
        &'a self,
        groups: &[R::Group],
        found: &mut Vec<&'a R>,
    ) -> Result<(), AllocError> {
        let mut place = 0;
        for group in groups {
            let run = self.places_from(group, place);
            self.list.push_between(run.start, run.end, found)?;
            place = run.end;
        }
        Ok(())
    }

    fn last(&self, group: &R::Group) -> Option<&R> {
        let run = self.places_of(group);
        if run.start < run.end {
            Some(self.list.at(run.end - 1))
        } else {
            None
        }
    }

    fn reserve(&mut self, n: usize) -> Result<(), AllocError> {
        self.list.reserve(n)
    }

    fn put(&mut self, row: R) {
        match self.place_to_put(&row.key()) {
            Ok(place) => {
                let _old = self.list.replace(place, row);
            }
            Err(place) => self.list.insert(place, row),
        }
    }

    fn replace(&mut self, row: R) -> Option<R> {
        match self.place_of(&row.key()) {
            Ok(place) => Some(self.list.replace(place, row)),
            Err(_) => None,
        }
    }

    fn take(&mut self, key: &R::Key) -> Option<R> {
        match self.place_of(key) {
            Ok(place) => Some(self.list.remove(place)),
            Err(_) => None,
        }
    }

    ghost in_order = { λ shelf. shelf.in_order };

    ghost each_once = { λ shelf.
        IsPermutation-rows_by_key R.key_cmp R.key_of (items_of shelf.list) };
}
