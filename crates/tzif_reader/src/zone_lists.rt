//! The lists of a zone file. Its transitions are read where they stand in the file's bytes.
ghost use Rattle.std.specs.Prelude.{◌≡◌, ◌<◌, ◌≤◌, ◌+◌, ◌*◌, length, None, Some, slice_get, slice_index};
ghost use Rattle.tzif_reader.specs.Cut.{lists_of, transition_at};
ghost use Rattle.tzif_reader.specs.Faults.{first_fault};
ghost use Rattle.tzif_reader.specs.Places.{IsRestOf};

use crate::frame::frame_of;
use crate::numbers::{long_at, piece};
use crate::zone_file::{LeapLine, ZoneFile};
use std::marker::Model;
use td_base::{Bytes, Items};
use td_civil::{Local, Moment};

/// What is read of a zone file and kept beside its bytes: where its transitions stand, and the
/// lists that are short.
#[derive(Drop)]
pub struct ZoneRest {
    /// Where the second data block begins, in bytes.
    pub block_at: usize,
    /// How many transitions it has.
    pub count: usize,
    /// The local time types. The first holds before the first transition.
    pub kinds: Items<Local>,
    pub leaps: Items<LeapLine>,
    /// A POSIX TZ string for the time after the last transition, or nothing.
    pub footer: Bytes,
}

/// The lists of a zone file. Contracts see them as the [`ZoneFile`] that they are.
#[derive(Drop)]
pub struct ZoneLists<'a> {
    times: &'a [u8],
    numbers: &'a [u8],
    kinds: &'a [Local],
    leaps: &'a [LeapLine],
    footer: &'a [u8],
}

impl<'a> Model for ZoneLists<'a> {
    ghost use Rattle.std.specs.Prelude.{◌≡◌, ◌*◌, length};
    ghost use Rattle.tzif_reader.specs.Cut.{items, transition_at};
    ghost use Rattle.tzif_reader.specs.declared.zone_file.ZoneFile.{ZoneFile};

    ghost Value = { ZoneFile };

    ghost view = { λ l. record {
      moments = items (length l.numbers.now) (transition_at l.times.now);
      numbers = l.numbers.now;
      kinds = l.kinds.now;
      leaps = l.leaps.now;
      footer = l.footer.now;
    } };

    ghost invariant = { λ l. length l.times.now ≡ 8 * length l.numbers.now };
}

/// What is kept of the lists of a file beside its bytes.
pub fn rest_of(file: &[u8], lists: ZoneFile) -> ZoneRest
    requires no_fault { first_fault file.now ≡ None }
    requires lists { lists ≡ lists_of file.now }
    ensures { IsRestOf file.now result }
{
    match frame_of(file) {
        Ok(frame) => ZoneRest {
            block_at: frame.block_at,
            count: frame.counts.timecnt as usize,
            kinds: lists.kinds,
            leaps: lists.leaps,
            footer: lists.footer,
        },
        Err(_) => unreachable!(),
    }
}

/// The lists of a file, by what is kept of them.
pub fn lists_in<'a>(file: &'a [u8], rest: &'a ZoneRest) -> ZoneLists<'a>
    requires { IsRestOf file.now rest.now }
    ensures { result ≡ lists_of file.now }
{
    let times = piece(file, rest.block_at, 8 * rest.count);
    let numbers = piece(file, rest.block_at + 8 * rest.count, rest.count);
    ZoneLists {
        times,
        numbers,
        kinds: rest.kinds.as_slice(),
        leaps: rest.leaps.as_slice(),
        footer: rest.footer.as_slice(),
    }
}

/// The moment that stands at a place of the transition times.
fn moment_at(times: &[u8], i: usize) -> Moment
    requires { 8 * i + 8 ≤ length times.now }
    ensures { result ≡ transition_at times.now i }
{
    Moment {
        seconds: long_at(times, 8 * i),
    }
}

impl<'a> ZoneLists<'a> {
    /// How many transitions there are.
    pub fn len(&self) -> usize
        ensures moments { result ≡ length self.now.moments }
        ensures numbers { result ≡ length self.now.numbers }
    {
        self.numbers.len()
    }

    /// The moment of a transition.
    pub fn moment(&self, i: usize) -> Moment
        requires { i < length self.now.moments }
        ensures { slice_get self.now.moments i ≡ Some result }
    {
        moment_at(self.times, i)
    }

    /// The index of the local time type from a transition on.
    pub fn number(&self, i: usize) -> u8
        requires { i < length self.now.numbers }
        ensures { result ≡ slice_index self.now.numbers i }
    {
        self.numbers[i]
    }

    /// The local time types.
    pub fn kinds(&self) -> &'a [Local]
        ensures { result.now ≡ self.now.kinds }
    {
        self.kinds
    }

    /// The leap lines.
    pub fn leaps(&self) -> &'a [LeapLine]
        ensures { result.now ≡ self.now.leaps }
    {
        self.leaps
    }

    /// The TZ string, or nothing.
    pub fn footer(&self) -> &'a [u8]
        ensures { result.now ≡ self.now.footer }
    {
        self.footer
    }
}
