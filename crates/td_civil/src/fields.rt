ghost use Rattle.std.specs.Prelude.{◌≡◌, ◌<◌, length, IfSome};
ghost use Rattle.jiff_core.specs.Calendar.{IsWithin};
ghost use Rattle.td_civil.specs.Bounds.{HasText};
ghost use Rattle.td_civil.specs.Calendar.{stamp_after, stamp_of};
ghost use Rattle.td_civil.specs.Reading as reading;
ghost use Rattle.td_civil.specs.Stamp.{spelling, basic_spelling};

use crate::day_numbers::{date_after, day_number};
use crate::digits::{date_spelling, digit, four_at, two_at};
use std::marker::Model;

// The seconds from 0000-01-01 to 1970-01-01.
const YEAR_ZERO: i64 = 62_167_219_200;

/// The fields of a moment's text: a date and a time of day, which need not exist.
#[derive(Drop)]
pub(crate) struct Fields {
    pub(crate) year: u32,
    pub(crate) month: u32,
    pub(crate) day: u32,
    pub(crate) hour: u32,
    pub(crate) minute: u32,
    pub(crate) second: u32,
}

impl Model for Fields {
    ghost use Rattle.td_civil.specs.Stamp.{Stamp};

    ghost Value = { Stamp };

    ghost view = { λ f. record {
      year = f.year;
      month = f.month;
      day = f.day;
      hour = f.hour;
      minute = f.minute;
      second = f.second;
    } };
}

impl Fields {
    /// The fields at their places in `YYYY-MM-DDTHH:MM:SSZ`.
    pub(crate) fn in_text(text: &[u8]) -> Fields
        requires { length text.now ≡ 20 }
        ensures { result ≡ reading.stamp_in text.now }
    {
        Fields {
            year: four_at(text, 0),
            month: two_at(text, 5),
            day: two_at(text, 8),
            hour: two_at(text, 11),
            minute: two_at(text, 14),
            second: two_at(text, 17),
        }
    }

    /// The fields of UTC at a number of seconds from 1970-01-01T00:00:00Z, in the years 0 to 9999.
    pub(crate) fn at(seconds: i64) -> Fields
        requires { HasText seconds }
        ensures { result ≡ stamp_of seconds }
    {
        Fields::after((seconds + YEAR_ZERO) as u64)
    }

    /// The same, for a number of seconds from the beginning of the year 0.
    fn after(seconds: u64) -> Fields
        requires { seconds < 315_569_520_000 }
        ensures { result ≡ stamp_after seconds }
    {
        let date = date_after((seconds / 86_400) as u32);
        Fields {
            year: date.year.unsigned_abs() as u32,
            month: date.month as u32,
            day: date.day as u32,
            hour: (seconds % 86_400 / 3600) as u32,
            minute: (seconds % 3600 / 60) as u32,
            second: (seconds % 60) as u32,
        }
    }

    /// Writes `YYYY-MM-DDTHH:MM:SSZ`.
    pub(crate) fn spelling(&self) -> [u8; 20]
        ensures { result ≡ spelling self.now }
    {
        let date = date_spelling(self.year, self.month, self.day);
        [
            date[0],
            date[1],
            date[2],
            date[3],
            date[4],
            date[5],
            date[6],
            date[7],
            date[8],
            date[9],
            b'T',
            digit(self.hour / 10),
            digit(self.hour),
            b':',
            digit(self.minute / 10),
            digit(self.minute),
            b':',
            digit(self.second / 10),
            digit(self.second),
            b'Z',
        ]
    }

    /// Writes `YYYYMMDDTHHMMSS`.
    pub(crate) fn basic_spelling(&self) -> [u8; 15]
        ensures { result ≡ basic_spelling self.now }
    {
        [
            digit(self.year / 1000),
            digit(self.year / 100),
            digit(self.year / 10),
            digit(self.year),
            digit(self.month / 10),
            digit(self.month),
            digit(self.day / 10),
            digit(self.day),
            b'T',
            digit(self.hour / 10),
            digit(self.hour),
            digit(self.minute / 10),
            digit(self.minute),
            digit(self.second / 10),
            digit(self.second),
        ]
    }

    /// The seconds from 1970-01-01T00:00:00Z. `None` if the date or the time of day does not exist.
    pub(crate) fn seconds(&self) -> Option<i64>
        ensures value { result ≡ reading.moment_if self.now }
        ensures bound { IfSome result (IsWithin 400_000_000_000) }
    {
        if self.hour >= 24 || self.minute >= 60 || self.second >= 60 {
            return None;
        }
        let day = day_number(self.year, self.month, self.day)?;
        Some(day * 86_400 + (self.hour * 3600 + self.minute * 60 + self.second) as i64)
    }
}
