//! Commands read from JSON, and commands, replies and faults as JSON.
#![tactic(auto)]

mod commands;
mod fault;
mod fault_texts;
mod json_number;
mod json_reading;
mod key;
mod kinds;
pub mod laws;
mod objects;
mod parts;
mod pushed;
mod reading;
mod refusal_texts;
mod refusal_values;
mod replies;
mod reply_texts;
mod said;
mod sent;
mod values;
mod words;

pub use clr_print::{print_board, print_order};
pub use commands::{command_text, command_value};
pub use fault::TextFault;
pub use fault_texts::fault_text;
pub use key::Key;
pub use kinds::command_word;
pub use reading::{command_in, command_of, command_over};
pub use replies::reply_value;
pub use reply_texts::reply_text;
pub use sent::can_be_sent;
pub use words::{position_text, role_text};
