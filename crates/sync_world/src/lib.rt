//! The law of a secondary (RFC 7808, section 4.2.2). Through any losses, repeats, restarts and
//! installs, a mirror that claims to be in sync holds exactly the release that the answer was made
//! from. The crate holds theorems only: no program calls anything here.
//!
//! The world of a primary and a mirror, and its steps, are in `specs/Worlds.antt`. What a mirror
//! receives in the answers of the actions is in `specs/Hearing.antt`; that it holds a release is in
//! `specs/Holding.antt`. The law is the contract of [`mirrors_hold_releases`], and [`mirrors_hold`]
//! states the same of any [`Primary`]. A mirror that requests calendars instead of files holds
//! those of `specs/Calendars.antt`, by [`mirrors_hold_calendars`].
//!
//! The crate stands on `sync_core` (the mirror) and `actions` (the answers). `mirror_world` and
//! `calendar_world` carry its law over to bytes.
#![tactic(auto)]

// The servers that a mirror may follow.
mod primary;

// The laws of a mirror that follows one.
mod laws;

pub use laws::{
    actions_serve, aliases_follow, answers_are_heard, asks_are_answered,
    calendar_requests_are_answered, calendars_are_heard, holds_comes, mirrors_hold,
    mirrors_hold_calendars, mirrors_hold_releases, requests_are_answered, tokens_are_refused_late,
};
pub use primary::{Actions, Primary};
