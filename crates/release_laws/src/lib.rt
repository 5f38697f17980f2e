//! Laws of releases: what tags and tokens identify, and what observances say of local time.
//!
//! A tag is made of the digest of `content_bytes`, and a token of that of `link_bytes`
//! (`catalogue/specs/Digests.antt`). Different contents never give the same bytes to the digest
//! ([`tags_cover`]). Neither do places that differ in anything that a token identifies
//! ([`tokens_cover`]).
//!
//! So equal tokens end the same history ([`tokens_name_histories`]), if no two different hashed
//! texts have digests that begin alike. That condition is left to SHA-256.
//!
//! The observances of a range are those of the states of local time, with each field written out
//! ([`observances_are_of_states`]). The definitions are those of `catalogue` and `zone_meaning`;
//! `answer_laws` uses the laws.
#![tactic(auto)]

mod covering;
mod histories;
mod observances;

pub use covering::{tags_cover, tokens_cover};
pub use histories::tokens_name_histories;
pub use observances::observances_are_of_states;
