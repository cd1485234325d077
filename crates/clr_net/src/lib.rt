//! Names, the network of sections and switching points, and the fence of a section.
#![tactic(auto)]

mod addition;
mod fence;
pub mod laws;
mod name;
mod named;
mod net_fault;
mod network;
mod point;
mod reach;
mod section;
mod ways;

pub use addition::Addition;
pub use fence::{Fence, RowPlaces, rows_at};
pub use name::{Name, NameFault, has_name};
pub use named::{Named, place_of, repeat_place, row_of, sort_by_name};
pub use net_fault::NetFault;
pub use network::{MAX_POINTS, MAX_SECTIONS, Network};
pub use point::{PointRow, Position};
pub use section::SectionRow;
