use json_forms::ListDoc;
use td_base::Bytes;

/// The decoded response to an ask.
#[derive(Drop)]
pub enum Heard {
    /// The list that was requested, of all zones or of those that changed since a token.
    List(ListDoc),
    /// The bytes of the TZif file that was requested.
    Zone(Bytes),
    /// The primary does not know the token, or no longer does (RFC 7808, section 5.2).
    BadToken,
}

/// Whether the mirror holds the release of the primary that answered.
#[derive(Clone, Copy, PartialEq, Eq)]
pub enum Settled {
    /// It holds exactly that release.
    Holds,
    /// It has to request more.
    More,
}
