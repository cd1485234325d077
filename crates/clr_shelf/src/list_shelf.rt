//! A shelf over a list of rows in key order.
ghost use Rattle.std.specs.Prelude.{◌≡◌, ◌-◌, ◌++◌, IsTrue, IfOk, IfErr, OnOk};
ghost use Rattle.std.specs.Prelude.{filter, map, vec_capacity, vec_len};
ghost use Rattle.std.proofs.lemmas.List.Sorted.{IsPermutation-refl};
ghost use Rattle.clr_shelf.specs.Rows.{in_key_order};
ghost use Rattle.clr_shelf.specs.Places.{IsPlaceOf, IsGapFor};

use crate::row::Row;
use crate::shelf::Shelf;
use std::alloc::{AllocError, Global};
use std::mem;

/// Rows in a `Vec`, in key order. A key is looked up by halves, and a group by a walk over all
/// rows.
#[derive(Drop)]
pub struct ListShelf<R: Row> {
    list: Vec<R>,
    ghost in_order: { IsTrue (in_key_order R.key_cmp R.key_of list.items) },
}

impl<R: Row> ListShelf<R> {
    // Where the row of a key is, or where it would go.
    fn place_of(&self, key: &R::Key) -> Result<usize, usize>
        ensures found { IfOk result (IsPlaceOf R.key_cmp R.key_of key.now self.now.list.items) }
        ensures absent { IfErr result (IsGapFor R.key_cmp R.key_of key.now self.now.list.items) }
    {
        self.list.binary_search_by(|row| row.compare_key(key))
    }

    // Puts the rows of a group after those that were found, in key order.
    fn push_group<'a>(&'a self, group: &R::Group, found: &mut Vec<&'a R>) -> Result<(), AllocError>
        ensures { OnOk result (map (λ row. row.now) found.new.items
            ≡ map (λ row. row.now) found.old.items
            ++ filter (R.is_in group.now) self.now.list.items) }
    {
        for row in &self.list {
            if row.belongs_to(group) {
                found.push(row)?;
            }
        }
        Ok(())
    }
}

impl<R: Row> Shelf<R> for ListShelf<R> {
    ghost rows = { λ shelf. shelf.list.items };

    ghost places = { λ shelf. shelf.list.items };

    ghost room = { λ shelf. vec_capacity shelf.list - vec_len shelf.list };

    fn empty(alloc: Global) -> Self {
        ListShelf {
            list: Vec::new(alloc),
        }
    }

    fn len(&self) -> usize {
        self.list.len()
    }

    fn get(&self, key: &R::Key) -> Option<&R> {
        match self.place_of(key) {
            Ok(place) => Some(&self.list[place]),
            Err(_) => None,
        }
    }

    fn at(&self, place: usize) -> Option<&R> {
        self.list.get(place)
    }

    fn group(&self, group: &R::Group) -> Result<Vec<&R>, AllocError> {
        self.list
            .iter()
            .filter(|row| row.belongs_to(group))
            .collect(*self.list.allocator())
    }

    fn push_groups<'a>(
        &'a self,
        groups: &[R::Group],
        found: &mut Vec<&'a R>,
    ) -> Result<(), AllocError> {
        for group in groups {
            self.push_group(group, found)?;
        }
        Ok(())
    }

    fn last(&self, group: &R::Group) -> Option<&R> {
        let mut last = None;
        for row in &self.list {
            if row.belongs_to(group) {
                last = Some(row);
            }
        }
        last
    }

    fn reserve(&mut self, n: usize) -> Result<(), AllocError> {
        self.list.reserve(n)
    }

    fn put(&mut self, row: R) {
        match self.place_of(&row.key()) {
            Ok(place) => self.list[place] = row,
            Err(place) => {
                let Ok(()) = self.list.insert(place, row) else {
                    unreachable!()
                };
            }
        }
    }

    fn replace(&mut self, row: R) -> Option<R> {
        match self.place_of(&row.key()) {
            Ok(place) => Some(mem::replace(&mut self.list[place], row)),
            Err(_) => None,
        }
    }

    fn take(&mut self, key: &R::Key) -> Option<R> {
        match self.place_of(key) {
            Ok(place) => Some(self.list.remove(place)),
            Err(_) => None,
        }
    }

    ghost in_order = { λ shelf. shelf.in_order };

    ghost each_once = { λ shelf. IsPermutation-refl shelf.list.items };
}
