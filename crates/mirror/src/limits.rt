/// The most bytes of an answer that are read. An answer with this many or more is too long.
pub const MOST_ANSWER: usize = 8_388_608;

/// The most answers to list requests in one sync.
pub const MOST_LISTS: usize = 16;
