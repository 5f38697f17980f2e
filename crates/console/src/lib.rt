//! The console of an operator. [`Lines`] splits the operator's bytes into lines, however the bytes
//! are cut into pieces, by `specs/Lines.antt`. [`reply`] and [`short`] write the replies, by
//! `specs/Replies.antt`. [`news_reply`] writes the notices of a subscriber.
//!
//! At each moment, the lines given so far and those still held are together the lines of all bytes
//! that were fed (`GivesLines` of specs/Steps.antt).
//!
//! The crate stands on `td_base`, `td_civil` and `subscribers`. `td_top` calls it.
#![tactic(auto)]

// Lines out of the operator's bytes, and what each requests.
mod line;
mod lines;
mod wishes;
mod words;

// The replies to the operator.
mod news;
mod replies;
mod said;

// Laws, and what may cross threads.
mod laws;
mod send_sync;

pub use laws::{folders_are_named, goes_on, reads_written};
pub use line::Line;
pub use lines::Lines;
pub use news::news_reply;
pub use replies::{reply, short};
pub use said::{Said, ShortLine};
pub use words::{meant_moment, read_number};
