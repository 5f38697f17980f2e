/// How many bytes one read of the input requests.
pub const PIECE: usize = 4_096;

/// How a console session ended.
#[derive(Clone, Copy, PartialEq, Eq)]
pub enum TalkEnd {
    /// The operator quit.
    Quit,
    /// The input ended.
    InputEnded,
    /// A read of the input failed.
    NotRead,
    /// A write to the output failed.
    NotWritten,
}
