//! The answers to rows of `release_cases` that install nothing: manifests, tables of leap seconds,
//! indexes, folders and histories of them, and the catalogue of a history.
//!
//! [`answer`] gives the answer to a row. It depends on the crates up to `release_check` and
//! `admission`, whose calls the rows try. The table of `release_cases` explains its own rows.
#![tactic(auto)]

// Manifests and tables of leap seconds.
mod fault_texts;
mod leap_tables;
mod manifests;

// Folders, histories of them, the catalogue of a history, and indexes of numbers.
mod catalogues;
mod changes;
mod histories;
mod indexes;
mod values;

// The answer to a row, by its kind.
mod answering;

pub use answering::{answer, laws, strange};
pub use manifests::manifest_line;
