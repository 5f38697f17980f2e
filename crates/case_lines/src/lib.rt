//! The common code of the programs of cases. Each reads a table from its standard input, one case
//! per line, and reports each case with an unexpected answer. [`Table`] reads the lines and counts.
//! It depends on `td_base`, `hex` and `thiserror`.
//!
//! A line `# ..` is a comment. `let NAME TEXT` names a text. `series NAME FROM TO TEXT` repeats the
//! text for all numbers in the range, with `$(n)` as the number. Any other line is a row, `KIND
//! WORD WORD .. = ANSWER`, with one blank between two words. A row without an answer is not counted
//! as a case.
//!
//! In a text `$(NAME)` inserts the text of that name, and `$(NAME*3)` inserts it three times. `\r`,
//! `\n`, `\t`, `\0` and `\xNN` are bytes, `\e` is empty, and `\\` and `\$` are the characters `\`
//! and `$`.
#![tactic(auto)]

// Rows, and the count of right answers.
mod row;
mod table;
mod tally;

// The values of texts and words.
mod numerals;
mod quoting;
mod texts;

// Answers, and their errors.
mod answer;
mod answer_builder;
mod case_fault;

pub use answer::{Answer, bytes, debug_text, display_text};
pub use answer_builder::AnswerBuilder;
pub use case_fault::CaseFault;
pub use numerals::{hex_bytes, number, numbers, signed_number};
pub use quoting::escape;
pub use row::Row;
pub use table::Table;
pub use tally::Tally;
pub use texts::{Texts, cut};
