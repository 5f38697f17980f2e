//! The answers to requests: the actions of a time zone data distribution service (RFC 7808, section
//! 5) over a catalogue. The main call is [`answer`]. It gives `action` of `specs/Action.antt`, for
//! each history that the catalogue represents. Each action has a separate file, here and in
//! `specs/`.
//!
//! Two laws: a format that a request does not name changes no answer
//! ([`unnamed_format_changes_no_answer`]), and both calendars say the same of a zone
//! ([`calendars_spell_the_zone`]).
//!
//! Requests are read by `http_request` and `target`, formats chosen by `negotiate`, and bodies
//! written by `vtimezone`, `jcal` and `json_forms`. `connection` serves the answers.
#![tactic(auto)]

// The answer to a request.
mod answering;

// The actions, and what only one action needs.
mod choice;
mod describing;
mod expanding;
mod finding;
mod formats;
mod getting;
mod leap_seconds;
mod listing;
mod periods;

// What several actions need.
mod bounds;
mod documents;
mod moments;
mod tags;

// Laws.
mod laws;

pub use answering::answer;
pub use laws::{calendars_spell_the_zone, unnamed_format_changes_no_answer};
