//! A point that a clearance holds, and what it holds there.
use clr_net::Name;

/// One point that a clearance holds open, and which other holds it has there.
#[derive(Clone, Copy, Debug, PartialEq, Eq)]
pub struct Held {
    pub point: Name,
    pub block: bool,
    pub control: bool,
    pub tag: bool,
}
