/// The most fields in the head of a reply.
pub const MOST_FIELDS: usize = 64;
