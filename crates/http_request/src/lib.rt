//! Reader of HTTP/1.1 request heads from the bytes of a connection, however these are cut into
//! pieces (RFC 9112, section 2.2).
//!
//! [`Heads`] takes pieces by `feed`, and its `next` gives the head at the beginning of the held
//! bytes. `Steps` of `specs/Steps.antt` defines the result of `next`. `Gives` and `Asks` of
//! `specs/Asks.antt` define the heads given so far, over all the bytes that were fed. It depends on
//! `td_base`, `httparse`, `memchr` and `http`; `stretches`, `devices`, `actions` and `connection`
//! use it.
#![tactic(auto)]

// Heads from the bytes of a connection.
mod head;
mod heads;
mod held;

// One step: where a head ends, how it is parsed, and whether it is refused.
mod judging;
mod limits;
mod looking;
mod reading;
mod scan;
mod step;

// The fields of a head.
mod fields;

// Theorems, and which types may cross threads.
mod laws;
mod send_sync;

pub use head::{Head, Next};
pub use heads::Heads;
pub use held::HeldBytes;
pub use laws::{gives, is_bounded, one_step, prefixes, refusal_stays, searches};
pub use looking::{is_full, is_within};
pub use scan::{Scan, ScannedLine, Search, find_end};
