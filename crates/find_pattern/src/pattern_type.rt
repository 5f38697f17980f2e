use td_base::Bytes;

/// A search pattern: a text that is the whole of a name, its beginning, its end or any part.
#[derive(Drop)]
pub struct Pattern {
    /// Whether any text may precede it.
    pub lead: bool,
    /// Whether any text may follow it.
    pub trail: bool,
    /// The text to find, without stars and escapes.
    pub text: Bytes,
}
