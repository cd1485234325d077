//! The machine that the program runs on: its memory, its databases and its ports.
ghost use Rattle.std.specs.Prelude.{◌≡◌, [], true};

use clr_disk::System;
use sqlite::Start;
use std::alloc::Global;

/// The machine: what it asks of a system it asks by the path or the address that it is given.
#[derive(Drop)]
pub struct Machine<Y: System> {
    pub(crate) alloc: Global,
    /// What opens databases and listens.
    pub(crate) system: Y,
}

impl<Y: System> Machine<Y> {
    /// The machine of a system.
    pub fn new(alloc: Global, system: Y) -> Machine<Y>
        ensures { result.system ≡ system }
    {
        Machine { alloc, system }
    }
}

impl<Y: System> Alloc for Machine<Y> {
    type A = Global;

    fn alloc(&self) -> Global {
        self.alloc
    }
}

/// The files of the program's database. A torn write leaves each of their bytes old or new, so most
/// commits sync once, as under SQLite's `synchronous=FULL`.
///
/// Its ghosts have to be some bytes, and are none. So a clause at this type speaks of files that
/// were empty alone: what holds of any is stated over any system.
#[derive(Drop)]
pub struct DatabaseStart;

impl Start for DatabaseStart {
    ghost log = { [] };

    ghost db = { [] };

    ghost is_mixing = { true };

    fn mixes() -> bool {
        true
    }
}

/// The same of the file of its journal, of which nothing is supposed together with the database.
#[derive(Drop)]
pub struct JournalStart;

impl Start for JournalStart {
    ghost log = { [] };

    ghost db = { [] };

    ghost is_mixing = { true };

    fn mixes() -> bool {
        true
    }
}
