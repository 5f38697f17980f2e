use td_base::Bytes;

/// The parts of a request head that decide the reply.
#[derive(Drop)]
pub struct Head {
    /// Whether the method is HEAD, so that the reply has no body (RFC 9110, section 9.3.2).
    pub head_only: bool,
    /// The target as in the request line, in origin form or in absolute form.
    pub target: Bytes,
    /// The values of the Accept fields, joined by a comma and a space (RFC 9110, section 5.3).
    pub accept: Option<Bytes>,
    /// The values of the If-None-Match fields, joined in the same way.
    pub none_match: Option<Bytes>,
    /// Whether the connection is to be closed after the reply (RFC 9112, section 9.3).
    pub close: bool,
}

/// The result of [`Heads::next`](crate::Heads::next): what the held bytes begin with.
#[derive(Drop)]
pub enum Next {
    /// A request head, which was removed from the held bytes.
    Request(Head),
    /// The head is not complete yet.
    More,
    /// The status of a refusal: 400, 405 or 431. Every later call gives it again.
    Bad(u16),
}
