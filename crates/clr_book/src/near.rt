//! What a command looks at, found among the rows of the book.
mod fence;
pub(crate) mod groups;
mod named;
mod network;
mod points;
pub(crate) mod rows;
