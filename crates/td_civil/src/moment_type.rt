ghost use Rattle.std.specs.Prelude.{◌≡◌, ◌↔◌, IsTrue};
ghost use Rattle.td_civil.specs.Bounds.{HasMeaning, has_meaning};

/// A moment: whole seconds from 1970-01-01T00:00:00Z, without leap seconds.
#[derive(Clone, Copy, Debug, PartialEq, Eq, PartialOrd, Ord, Hash)]
pub struct Moment {
    pub seconds: i64,
}

/// The first moment that the service handles, 1800-01-01T00:00:00Z.
pub const LO: i64 = -5_364_662_400;

/// The end of the moments that the service handles, 9999-01-01T00:00:00Z; it is not one of them.
pub const HI: i64 = 253_370_764_800;

/// The period of the calendar in seconds: 400 years, which are 146,097 days and whole weeks.
pub const CYCLE: i64 = 12_622_780_800;

impl Moment {
    /// Whether it lies from [`LO`] on and before [`HI`].
    pub fn has_meaning(self) -> bool
        ensures test { result ≡ has_meaning self.seconds }
        ensures meant { IsTrue result ↔ HasMeaning self.seconds }
    {
        LO <= self.seconds && self.seconds < HI
    }
}
