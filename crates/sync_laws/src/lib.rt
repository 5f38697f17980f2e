//! Laws of mirrors: what they send, what they take, when a sync ends well, what they state of a
//! release, and the limits of all that is read. Each is stated over bytes, histories or numbers,
//! not over the steps of the code.
#![tactic(auto)]

mod connections;
mod cuts;
mod exchanges;
mod limits;
mod releases;
mod replies;
mod restarts;
mod syncs;
mod worlds;

pub use connections::{connections_answer_mirrors, mirrors_answer_as_primaries};
pub use cuts::{only_whole_replies_are_taken, refusals_are_not_taken};
pub use exchanges::{
    requests_name_their_host, responses_are_taken_by_status, responses_end_by_their_length,
};
pub use limits::limits_are_these;
pub use releases::{held_releases_state_their_last_change, later_releases_may_follow};
pub use replies::{answered_syncs_are_understood, replies_fit};
pub use restarts::restarted_primaries_are_followed;
pub use syncs::{only_empty_changes_settle, syncs_end_with_empty_changes};
pub use worlds::{mirrors_come_to_hold, requests_can_be_sent};
