//! Releases of time zone data, and the catalogue: the in-memory index of the newest release.
//!
//! [`Catalogue::first`] begins a history, and [`Catalogue::next`] adds a release to it. `StandsFor`
//! of `specs/Holdings.antt` defines the entries, tags and tokens of a catalogue from that history.
//! It depends on `td_base`, `td_civil`, `change_index` and `sha2`; nearly every crate above uses
//! it.
#![tactic(auto)]

// A release, its zones and its limits.
mod limits;
mod release;
mod zone_data;

// The entries of a history, and how it begins and grows.
mod entries;
mod head;
mod holding;
mod keeping;
mod making;
mod value;

// Look-ups, and their index.
mod changes;
mod lookups;

// Sorting by a text, and the digests behind tags and tokens.
mod chain;
mod digest;
mod names;
mod order;

// Theorems, and which types may cross threads.
mod laws;
mod send_sync;

pub use entries::Entry;
pub use holding::Catalogue;
pub use laws::{
    entries_are_plain, fits_what_is_held, histories_grow, order_is_free, tokens_are_apart,
    tokens_are_plain, tokens_find_places,
};
pub use limits::{KEPT_TOKENS, MOST_NAMES, MOST_RELEASES, MOST_ZONES};
pub use order::borrow_rising;
pub use release::{Content, LeapStep, Leaps, Release};
pub use value::ReleaseMark;
pub use zone_data::ZoneData;
