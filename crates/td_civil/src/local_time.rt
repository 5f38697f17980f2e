ghost use Rattle.std.specs.Prelude.{◌≡◌, ◌↔◌, IsTrue};
ghost use Rattle.td_civil.specs.SameLocal.{same_local};

use crate::Moment;
use td_base::ShortText;

/// The abbreviation of a state of local time, such as `EST`: at most 32 bytes.
pub type Name = ShortText<32>;

/// A state of local time.
#[derive(Debug, Drop, PartialEq, Eq)]
pub struct Local {
    /// Seconds east of UTC.
    pub offset: i32,
    /// Whether it is daylight saving time.
    pub dst: bool,
    pub name: Name,
}

impl Local {
    /// A copy.
    pub fn copy(&self) -> Local
        ensures { result ≡ self.now }
    {
        Local {
            offset: self.offset,
            dst: self.dst,
            name: self.name.copy(),
        }
    }

    /// Whether the other state has this offset, flag and name.
    pub fn is_same(&self, other: &Local) -> bool
        ensures exact { result ≡ same_local self.now other.now }
        ensures equal { IsTrue result ↔ (self.now ≡ other.now) }
    {
        self == other
    }
}

/// A change of local time, or the state at the beginning of a range.
#[derive(Drop, PartialEq, Eq)]
pub struct Observance {
    pub onset: Moment,
    /// The offset before the onset, in seconds east of UTC.
    pub from: i32,
    /// The offset from the onset on, in seconds east of UTC.
    pub to: i32,
    /// Whether daylight saving time holds from the onset on.
    pub dst: bool,
    pub name: Name,
}

impl Observance {
    /// A copy.
    pub fn copy(&self) -> Observance
        ensures { result ≡ self.now }
    {
        Observance {
            onset: self.onset,
            from: self.from,
            to: self.to,
            dst: self.dst,
            name: self.name.copy(),
        }
    }
}
