//! The top call of the program, [`run`]: what it writes, and its exit status, for given arguments,
//! store and input. How a run ends, command by command, is `RunEnds` of `run_ends`. When it is
//! complete is stated by [`runs_complete`].
//!
//! Here are the commands that serve, `serve` and `mirror`, with the console of their operator. The
//! other commands are in `plain_commands`. Files, sockets and threads are traits of `td_base` here.
//! The program `tzdistd` calls `run` with those of `devices`.
#![tactic(auto)]

// The arguments, and a run by them.
mod command;
mod running;

// Doors, each served by a worker, beside the console.
mod mirroring;
mod server;
mod works;

// The session beside workers, its lines, and their replies.
mod audience;
mod console_beside;
mod operator;
mod replies;
mod talking;

// Sources of new releases: folders, or a mirror of another server.
mod folder_feed;
mod mirror_feed;
mod release_feed;

pub use run_ends::Outcome;
pub use running::{run, runs_complete};
