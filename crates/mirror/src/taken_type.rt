/// What an answer brought.
#[derive(Clone, Copy, PartialEq, Eq)]
pub enum Taken {
    /// It shows that the mirror holds the release of the upstream.
    Settled,
    /// Another list, or the refusal of a token.
    List,
    /// A file.
    File,
}
