//! The register's rows, commands, replies and edits, and the definitions of what it answers.
#![tactic(auto)]

mod change;
mod clearance_id;
mod command;
mod hold;
mod hold_kind;
mod items;
pub mod laws;
mod moment;
mod phase;
mod place;
mod point_state;
mod record;
mod refusal;
mod reply;
mod step_row;
mod tasks;
mod text;

pub use change::{Change, Edit};
pub use clearance_id::{ClearanceId, IdFault, MAX_CLEARANCE_NUMBER, read_number};
pub use command::{Command, Kind};
pub use hold::{Hold, HoldGroup};
pub use hold_kind::HoldKind;
pub use items::{Holds, Items, Names, PointStates, Steps};
pub use moment::{MAX_MOMENT, Moment};
pub use phase::Phase;
pub use place::Place;
pub use point_state::PointState;
pub use record::Record;
pub use refusal::Refusal;
pub use reply::{Card, Reply, View};
pub use step_row::{StepKey, StepRow};
pub use tasks::Tasks;
pub use text::Text;
