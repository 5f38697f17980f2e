use td_base::{Bytes, Items};
use td_civil::Moment;

/// A zone that a release changes or adds.
#[derive(Drop)]
pub struct Changed {
    pub tzid: Bytes,
    /// The first moment at which it differs from the zone that this identifier named before, as
    /// identifier or as alias. None if it named no zone, or if the two differ at no moment.
    pub first: Option<Moment>,
}

/// What a release changes compared with the one before it, in rising order of the identifiers.
#[derive(Drop)]
pub struct Delta {
    pub changed: Items<Changed>,
}
