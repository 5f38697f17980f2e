/// What contracts know of a holder of the shared word. No value of it exists at run time.
pub struct Knows {
    /// Whether the holder is the flag itself, which is the only one to raise it.
    pub owns: bool,
    /// Whether the flag was raised by this holder, or this sign has seen it raised.
    pub raised: bool,
}
