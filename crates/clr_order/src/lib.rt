//! Switching orders: actions, steps, the texts of steps, and the three checks of an order.
#![tactic(auto)]

mod action;
mod held;
mod holds_left;
mod isolating;
pub mod laws;
mod needed;
mod order_fault;
mod places;
mod restoring;
mod step;
mod switching;
mod texts;

pub use action::Action;
pub use held::Held;
pub use holds_left::HoldsLeft;
pub use isolating::check_isolating;
pub use order_fault::OrderFault;
pub use restoring::check_restoring;
pub use step::{Step, StepState};
pub use switching::check_switching;
pub use texts::{StepFault, read_step_text, step_text};
