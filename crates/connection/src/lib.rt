//! One connection of HTTP/1.1, served request by request (RFC 9112, section 9).
//!
//! [`serve`] reads pieces only while no whole head has arrived. For each request its desk enters
//! once, and the answer is computed over the catalogue that the desk then holds. The report says
//! how the connection ended, and at which place of the history each request was answered. What it
//! writes is `Served` of specs/Served.antt: four ends, each a record over the bytes read and the
//! bytes written. What happens to the desk is `Enters` of specs/Entering.antt.
//!
//! The crate stands on `http_request`, `actions`, `http_answer`, `answer_cache` and `publication`.
//! `td_top` runs [`DoorWork`] in its worker threads; `plain_commands` serves standard input.
#![tactic(auto)]

// The work of a thread: the connections of a door.
mod door_work;

// One connection, and one round at a door.
mod round;
mod serving;

// What is read from a connection, the answer to it, and what is written.
mod hearing;
mod places;
mod replying;
mod sending;

// Answers that are kept, and those that are computed.
mod computing;
mod kept_answers;

// Laws, and what may cross threads.
mod laws;
mod send_sync;

pub use door_work::{DoorDone, DoorWork};
pub use kept_answers::KeptAnswers;
pub use laws::{nothing_needed, one_closing};
pub use serving::{serve, serve_over};
