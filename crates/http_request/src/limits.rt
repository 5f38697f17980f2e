/// The most bytes of a head, with the empty lines in front of it.
pub const MOST_HEAD_BYTES: usize = 16_384;

/// The most line feeds of a head: those of the request line, of 64 fields and of the empty line.
/// Empty lines in front of it count too.
pub const MOST_FEEDS: usize = 66;

/// The most fields that are parsed in a head. The limit of line feeds leaves room for 64.
pub const MOST_FIELDS: usize = 66;
