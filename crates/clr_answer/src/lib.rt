//! What a command is answered, of the rows near it: its checks, what it changes, and its reply.
#![tactic(auto)]

mod card;
mod checks;
mod decision;
mod effect;
mod fences;
mod kinds;
mod names;
mod near;
mod view;

pub use checks::orders::each_once;
pub use checks::steps::hinders;
pub use decision::Decision;
pub use kinds::decide;
pub use names::{in_order, is_among};
pub use near::Near;
