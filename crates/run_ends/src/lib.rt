//! What a run ends by, for all commands: its exit status, the lines that end it, what its caller
//! receives, and the history that it opens. How each command may end is `RunEnds` of
//! `specs/Running.antt`, with a page for each below `specs/Running/`.
//!
//! The code of the commands is in `plain_commands` and `td_top`, and that of an operator's console
//! in `td_top`.
#![tactic(auto)]

// A run: what it borrows, and how it ended.
mod kept_tests;
mod outcome;
mod site;
mod status;
mod talk_end;

// Texts that end a run.
mod printing;
mod refusing;

// What is published, and for which desks.
mod opening;
mod session;
mod session_installs;

// What may cross threads.
mod send_sync;

pub use kept_tests::KeptTests;
pub use opening::{OpenedServer, open_all};
pub use outcome::{Ending, Outcome, Served};
pub use printing::{print, refuse, refuse_shown, shown};
pub use refusing::{fault_text, refuse_install};
pub use session::Session;
pub use site::RunIo;
pub use status::{Status, status_for, status_of};
pub use talk_end::{PIECE, TalkEnd};
