//! Writer of HTTP/1.1 replies (RFC 9112, section 4; RFC 9110): a status line, the fields that
//! apply, and a body.
//!
//! [`write`] appends the reply of an [`Answer`], [`make_reply`] puts it into a separate buffer, and
//! [`fixed`] is a reply that closes the connection. `reply` and `fixed` of `specs/Replies.antt`
//! define them. It depends on `td_base`, `http` and `itoa`; `actions`, `connection` and
//! `answer_cache` use it.
#![tactic(auto)]

// Answers.
mod answer;
mod status;

// Writing them.
mod closing;
mod lines;
mod making;
mod putting;
mod writing;

// Which types may cross threads.
mod send_sync;

pub use answer::{Answer, Kind};
pub use closing::fixed;
pub use making::make_reply;
pub use writing::write;
