//! The machine, and what came of it.
use crate::blank::{Blank, InMemory};
use std::alloc::Global;

/// A machine that makes each of its databases from a blank one.
#[derive(Drop)]
pub struct Known<B: Blank + Drop> {
    pub alloc: Global,
    pub blank: B,
    /// What went out over the connection that was let go last.
    pub response: Vec<u8>,
}

impl Known<InMemory> {
    /// A machine in memory. No connection came yet.
    pub fn new(alloc: Global) -> Known<InMemory> {
        Known {
            alloc,
            blank: InMemory,
            response: Vec::new(alloc),
        }
    }
}
