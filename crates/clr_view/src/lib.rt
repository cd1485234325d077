//! The network as a page draws it.
#![tactic(auto)]

mod live;
mod spread;
mod values;
mod view;

pub use view::network_text;
