//! The limits of releases and of histories.

/// The most zones that a release may have.
pub const MOST_ZONES: usize = 4_096;

/// The most names, identifiers and aliases, that the zones of a release may have.
pub const MOST_NAMES: usize = 16_384;

/// The most releases that a history may have.
pub const MOST_RELEASES: u32 = 4_294_967_295;

/// The number of last places whose tokens are kept.
pub const KEPT_TOKENS: u32 = 512;
