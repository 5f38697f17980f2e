use td_base::Bytes;
use td_civil::Moment;

/// The kinds of wishes to be notified of changes.
#[derive(Clone, Copy, PartialEq, Eq)]
pub enum WishKind {
    /// Every change.
    Any,
    /// Changes of zones whose identifier begins with given bytes, case-sensitively.
    Under,
    /// Changes that begin before a given moment.
    Past,
}

/// A wish of its kind. Some kinds do not use `under` or `before`.
#[derive(Drop)]
pub struct Wish {
    pub kind: WishKind,
    /// The prefix that the identifier of a zone must have.
    pub under: Bytes,
    /// The moment before which a change must begin, in UTC.
    pub before: Moment,
}
