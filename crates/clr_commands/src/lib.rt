//! What each subcommand results in, over files, databases and input.
#![tactic(auto)]

pub mod archive;
pub mod archive_text;
pub mod board;
pub mod check;
pub mod fence;
pub mod first;
pub mod import;
pub mod init;
pub mod laws;
pub mod migrate;
pub mod next_part;
pub mod order;
pub mod part_after;
pub mod replies;
pub mod run;
pub mod serve;
pub mod serve_line;
pub mod update;
pub mod verify;
pub mod wayback;
