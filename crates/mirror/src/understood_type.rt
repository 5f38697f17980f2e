use sync_core::Heard;

/// The meaning of an answer to a request.
#[derive(Drop)]
pub enum Understood {
    /// The decoded response.
    Hears(Heard),
    /// It is malformed from this place on.
    Unreadable(usize),
    /// It refuses the request, with this status.
    Refuses(u16),
}
