ghost use Rattle.std.specs.Prelude.{◌≡◌, Bool};
ghost use Rattle.catalogue.specs.Histories.{EntryData};
ghost use Rattle.catalogue.specs.HeldZones.{entry_data};

use catalogue::Entry;
use zone_meaning::Zone;

/// Which zones of a release are in a list.
pub trait Choice {
    ghost shows: { Self → EntryData → Bool };

    /// Whether this zone is in the list.
    fn takes(&self, entry: &Entry<Zone>) -> bool
        ensures { result ≡ shows self.now (entry_data (λ z. z) entry.now) };
}
