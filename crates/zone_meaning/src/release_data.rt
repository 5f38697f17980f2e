//! Zones as data of releases.
use crate::{Zone, file};
use catalogue::ZoneData;

impl ZoneData for Zone {
    ghost use Rattle.zone_meaning.specs.Sound.{IsSound};
    ghost use Rattle.zone_meaning.specs.Lengths.{sound_labels, sound_lengths};

    ghost bytes = { λ z. z };

    ghost sound = { IsSound };

    fn file_bytes(&self) -> &[u8] {
        file(self)
    }

    ghost lengths = { sound_lengths };

    ghost labels = { sound_labels };
}
