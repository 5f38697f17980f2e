//! Laws of whole answers: what a client may conclude from the answer to its request. The crate
//! holds theorems only.
//!
//! An answer with a calendar, in lines or as JSON, reads as the calendar of the requested zone,
//! between the requested bounds. At each moment between them it gives the state of that zone's file
//! ([`calendars_tell_their_zone`]). An answer with a file has the bytes of the zone's file
//! ([`files_are_those_of_zones`]). An expansion has the observances of that file
//! ([`expansions_tell_their_zone`]). A list shows the zones that changed
//! ([`lists_tell_what_changed`]). Equal entity tags stand for one content, one format and one range
//! ([`entity_tags_cover`]).
#![tactic(auto)]

mod calendars;
mod expansions;
mod files;
mod lists;
mod tags;

pub use calendars::calendars_tell_their_zone;
pub use expansions::expansions_tell_their_zone;
pub use files::files_are_those_of_zones;
pub use lists::lists_tell_what_changed;
pub use tags::entity_tags_cover;
