//! The implementation of `Value`: a catalogue represents lists of releases.
use crate::{Catalogue, ZoneData};
use std::marker::Model;
use td_base::Value;

/// A release as plain data, for use in clauses only. No value of it exists at run time.
pub struct ReleaseMark {
    seconds: i64,
}

impl Model for ReleaseMark {
    ghost use Rattle.std.specs.Prelude.{[], None};
    ghost use Rattle.catalogue.specs.Releases.{ReleaseData};

    ghost Value = { ReleaseData };

    ghost view = { λ r. record {
      stamp = r.seconds;
      publisher = [];
      version = [];
      contents = [];
      leaps = None;
    } };
}

impl<Z: ZoneData + Drop> Value for Catalogue<Z> {
    ghost use Rattle.catalogue.specs.Counts.{stands_count};
    ghost use Rattle.catalogue.specs.Holdings.{StandsFor, release_held, place_count};

    type Element = ReleaseMark;

    ghost last = { λ c. release_held Z.bytes c };

    ghost stands = { StandsFor Z.bytes Z.sound };

    ghost places = { place_count };

    fn count(&self) -> u32 {
        self.count()
    }

    ghost counts = { stands_count Z.bytes Z.sound };
}
