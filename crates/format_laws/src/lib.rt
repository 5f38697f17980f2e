//! Laws of documents as JSON: reading the text of each gives the tree that it was printed from.
//!
//! The laws of lists, expansions, tables of leap seconds and problems are in `json_forms`. This
//! crate has those of capabilities and of calendars as JSON (`jcal`); the latter also say what is
//! read from such a text. `answer_laws` uses them.
#![tactic(auto)]

mod documents;

pub use documents::{calendars_read_back, capabilities_read_back};
