/// The kinds of admission rules for a release that is to join a history.
#[derive(Clone, Copy, PartialEq, Eq)]
pub enum RuleKind {
    /// At most this number of zones may change.
    MaxChanged,
    /// No zone may change before a moment, given in seconds since 1970-01-01T00:00:00Z.
    NoPastChange,
}

/// A rule with its number.
#[derive(Clone, Copy, PartialEq, Eq)]
pub struct Chosen {
    pub kind: RuleKind,
    pub number: i64,
}
