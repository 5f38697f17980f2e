use crate::NoMemory;
use thiserror::Error;

/// Why a source was not read to its end.
#[derive(Clone, Copy, Debug, PartialEq, Eq, Error)]
pub enum SourceFault {
    /// Out of memory.
    #[error("out of memory")]
    NoMemory,
    /// The source failed.
    #[error("a read failed")]
    Failed,
}

impl From<NoMemory> for SourceFault {
    ghost use Rattle.std.specs.Prelude.{◌≡◌};
    ghost use Rattle.td_base.specs.declared.source_fault.SourceFault.TheVariants as fault;

    ghost from_gives = { λ _ e. e ≡ fault.NoMemory };

    fn from(_: NoMemory) -> Self {
        SourceFault::NoMemory
    }
}
