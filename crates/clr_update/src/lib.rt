//! Network and staff of a register change under open clearances: what an update is, what is in its
//! way, and its laws.
#![tactic(auto)]

mod changes;
pub mod laws;
mod obstacle;

pub use changes::Changes;
pub use obstacle::Obstacle;
