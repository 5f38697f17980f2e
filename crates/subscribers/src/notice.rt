use td_base::{Bytes, Items};

/// Identifiers of zones.
pub type Names = Items<Bytes>;

/// The notice of one install for a subscriber.
#[derive(Drop)]
pub struct Notice {
    /// The place of the installed release in the history, counted from 1.
    pub place: u32,
    /// The changed zones that the wish takes, in rising order. There is at least one.
    pub tzids: Names,
}

/// Borrowed notices, the earliest first.
pub type Notices<'n> = &'n [Notice];
