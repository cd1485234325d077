//! One request to the register over HTTP, and its response.
#![tactic(auto)]

mod callers;
mod desk;
mod fields;
mod foreign;
mod head;
mod length;
mod options;
mod registrar;
mod request;
mod respond;
mod response;
mod serve;
mod service;
mod target;
mod unread;

pub use options::Service;
pub use registrar::Registrar;
pub use serve::{HttpFault, Served, serve_one, serve_request};
pub use service::{
    headline_holds_of_requests, inputs_are_answered_once, posted_bodies_ask, requests_are_runs,
    requests_speak_for_themselves, serve_all,
};
pub use unread::may_be_unread;
