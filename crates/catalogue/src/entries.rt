use crate::Content;
use td_base::Bytes;
use td_civil::Moment;

/// A zone of the last release of a history, with its tag and the release of its last change.
#[derive(Drop)]
pub struct Entry<Z> {
    /// The aliases are in rising order.
    pub content: Content<Z>,
    /// The first half of the content's digest in hex.
    pub tag: [u8; 32],
    /// The place of the release in which the content last changed, counted from 1.
    pub changed: u32,
    /// The stamp of that release.
    pub stamp: Moment,
    /// The publisher of that release.
    pub publisher: Bytes,
    /// The version of that release.
    pub version: Bytes,
}

/// An entry with the digest of its content. Catalogues of one history share it until the content
/// changes.
#[derive(Drop)]
pub struct Held<Z> {
    pub entry: Entry<Z>,
    pub digest: [u8; 32],
}
