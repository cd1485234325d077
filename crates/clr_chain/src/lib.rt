//! A journal as a chain: each line has the sum of all before it, so a register knows its journal.
#![tactic(auto)]

mod begin;
mod chain_end;
mod clock;
mod fault;
mod finding;
mod first;
mod floats;
pub mod laws;
mod looking;
mod near;
mod opening;
mod part;
mod print;
mod read_on;
mod sought;
mod stepping;
mod sums;
mod values;
mod walk;

pub use begin::new_chain;
pub use chain_end::ChainEnd;
pub use clock::Clock;
pub use clr_rules::Place;
pub use fault::{ChainFault, NewFault};
pub use finding::{Ahead, Found, found_in};
pub use first::{RULES, other_rules_in, print_first, read_first};
pub use looking::{Looked, look};
pub use opening::{OpenedChain, open_chain};
pub use print::{Link, print_archived, print_carried, print_updated, print_withdrawn};
pub use stepping::step;
pub use sums::first_sum;
pub use walk::{Step, Walk};
