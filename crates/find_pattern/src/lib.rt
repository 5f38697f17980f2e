//! Patterns of the names of time zones (RFC 7808, section 5.5). [`read`] gives the pattern of a
//! text (`specs/Patterns.antt`), and [`matches`] returns whether a name matches it
//! (`specs/Matching.antt`). [`reads_back`] is the theorem that each pattern is read from its text.
//! It depends on `td_base`; `actions` uses it.
#![tactic(auto)]

// Patterns, and the error of a bad one.
mod pattern_fault;
mod pattern_type;

// Reading a pattern, and matching names.
mod folding;
mod matching;
mod reading;

// Theorems, and which types may cross threads.
mod laws;
mod send_sync;

pub use laws::reads_back;
pub use matching::matches;
pub use pattern_fault::BadPattern;
pub use pattern_type::Pattern;
pub use reading::read;
