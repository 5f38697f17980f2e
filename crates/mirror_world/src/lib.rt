//! The law of a secondary over bytes (RFC 7808, section 4.2.2). It applies when the exchanges that
//! a mirror recorded are those of a primary. Each sync that ended well then left the mirror with
//! exactly one release of that primary, whose contents it serves. No program calls anything here.
//!
//! Which exchanges are those of a primary is `IsAnsweredOver` of `specs/Answers.antt`. The steps of
//! a world that bring them to the mirror are `Logs` of `specs/Logs.antt`. The law is the contract
//! of [`mirrors_hold_in_turn`], and [`contents_are_held`] states what is served.
//!
//! The crate stands on `sync_world` (the law over decoded answers), `mirror`, `actions` and
//! `http_client`.
#![tactic(auto)]

mod laws;

pub use laws::{
    answers_are_heard_in_bytes, answers_are_understood, calendar_requests_ask, contents_are_held,
    data_is_heard_in_bytes, data_is_meant_in_bytes, held_releases_pass, histories_go_on,
    mirrors_follow, mirrors_hold_in_turn, releases_are_held, requests_ask, settled_mirrors_pass,
    syncs_are_understood, syncs_hold, syncs_settle, walks_hold,
};
