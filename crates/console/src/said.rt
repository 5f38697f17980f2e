use td_base::{Bytes, ShortText, Token};

/// A reply to the operator.
#[derive(Drop)]
pub enum Said {
    /// The workers were started. The token is that of the release served.
    Ready(Token),
    /// A release was published, and has this token.
    Installed(Token),
    /// The upstream's release is the one already served, which has this token.
    Unchanged(Token),
    /// A release was refused, with the text of the fault.
    Refused(Bytes),
    /// There was no memory for what the line requested, and nothing was done.
    NoMemory,
    /// The token of the release served, and how many zones it has.
    Serving(Token, u32),
    /// A new subscriber was added, with this number.
    Watching(u32),
    /// The last reply, to `quit`.
    Bye,
    /// The line is not a known command.
    Unknown,
}

/// A reply other than a refusal, in a fixed buffer of 64 bytes.
pub type ShortLine = ShortText<64>;
