use std::error::Error;
use std::fmt;
use td_base::{Bytes, NoMemory};

/// The reply of a server.
#[derive(Drop)]
pub struct Reply {
    /// The status code.
    pub status: u16,
    /// All bytes after the head.
    pub body: Bytes,
}

/// Why bytes are not a reply.
#[derive(Clone, Copy, Debug, PartialEq, Eq)]
pub enum BadReply {
    /// Out of memory.
    NoMemory,
    /// The byte position from which they are invalid: 0 for the head, and its length for the body.
    BadReply(usize),
}

impl fmt::Display for BadReply {
    ghost use Rattle.std.specs.Prelude.{Some};
    ghost use Rattle.http_client.specs.FaultText.{fault_text};

    ghost output = { λ fault. Some (fault_text fault) };

    fn fmt<W: fmt::Write>(&self, f: &mut fmt::Formatter<W>) -> fmt::Result {
        match self {
            BadReply::NoMemory => write!(f, "0 NoMemory"),
            BadReply::BadReply(place) => write!(f, "1 BadReply {place}"),
        }
    }
}

impl Error for BadReply {}

impl From<NoMemory> for BadReply {
    ghost use Rattle.std.specs.Prelude.{◌≡◌};
    ghost use Rattle.http_client.specs.declared.reply.BadReply.TheVariants.{NoMemory};

    ghost from_gives = { λ _ fault. fault ≡ NoMemory };

    fn from(_: NoMemory) -> Self {
        BadReply::NoMemory
    }
}
