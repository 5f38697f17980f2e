use td_base::{Bytes, Items, Ranked};
use td_civil::Moment;

/// The most bytes that a manifest may have.
pub const MOST_BYTES: usize = 4_194_304;

/// How deep the arrays and objects of a manifest may nest.
pub const MOST_DEPTH: usize = 127;

/// The content of a release's manifest.
#[derive(Drop)]
pub struct Manifest {
    /// 1 to 64 printable ASCII bytes; the same holds for the version.
    pub publisher: Bytes,
    pub version: Bytes,
    /// When the release was made, in UTC, from 1800-01-01T00:00:00Z to before 9999-01-01T00:00:00Z.
    pub stamp: Moment,
    pub zones: Items<ManifestZone>,
    pub leaps: Option<ManifestLeaps>,
}

/// A zone of a manifest. Its identifiers are not checked here, but with the release.
#[derive(Drop)]
pub struct ManifestZone {
    pub tzid: Bytes,
    /// The name of the zone's TZif file in the release's folder.
    pub file: Bytes,
    pub aliases: Items<Bytes>,
}

/// Zones are sorted by their identifiers.
impl Ranked for ManifestZone {
    ghost text = { λ z. z.tzid };

    fn text(&self) -> &[u8] {
        self.tzid.as_slice()
    }
}

/// The leap seconds of a manifest.
#[derive(Drop)]
pub struct ManifestLeaps {
    /// The name of the file with the leap seconds in the release's folder.
    pub file: Bytes,
    /// The date, `YYYY-MM-DD`, from which the table is expired.
    pub expires: Bytes,
}
