//! The JSON documents of the service (RFC 7808, section 6, and RFC 7807), with exact texts.
//!
//! Each document is defined in `specs/` as a tree of `serde_json`'s data, and its text is the
//! compact text of that tree. The list of time zones is `list_document`, the observances of one
//! zone `expansion_document`, the capabilities `capabilities_document`, the leap seconds
//! `leap_document`, and a refusal `problem_document`.
//!
//! Documents that grow with the data are not built first: `ListWriter` and `ExpansionWriter` take
//! one item at a time. A zone is written token by token, an observance in three pieces, of which a
//! period of the calendar changes only the year. The others are built as a `Value` and printed. The
//! server writes these documents (`actions`), and its clients read them (`mirror`, `made_load`).
#![tactic(auto)]

// What a list and a problem hold, and why bytes are not a list.
mod list_fault;
mod problem_type;
mod zone_list;

// Documents, written.
mod capabilities_writer;
mod expansion_writer;
mod leap_writer;
mod list_writer;
mod observance_text;
mod plain;
mod problem_writer;
mod tree_writer;

// Documents, read.
mod json_reader;
mod list_judging;
mod list_reader;
mod members;
mod problem_reader;

// Laws, and what may cross threads.
mod laws;
mod send_sync;

pub use capabilities_writer::capabilities_text;
pub use expansion_writer::{ExpansionWriter, expand_text};
pub use laws::{expansion_reads_back, leap_reads_back, list_reads_back, problem_reads_back};
pub use leap_writer::leap_text;
pub use list_fault::BadList;
pub use list_reader::read_list;
pub use list_writer::{ListWriter, list_text};
pub use observance_text::ObservanceText;
pub use problem_reader::read_problem;
pub use problem_type::Problem;
pub use problem_writer::problem_text;
pub use zone_list::{ListDoc, ListZone, ZoneTexts};
