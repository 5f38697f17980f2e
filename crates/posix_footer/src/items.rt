//! The items of a TZ string: names, offsets, times and days. After `None` the reader's position is
//! unspecified.
ghost use Rattle.std.specs.Prelude.{◌≡◌, ◌+◌, ◌-◌, ◌*◌, ◌<◌, ◌≤◌, length, drop, if◌then◌else◌};
ghost use Rattle.std.specs.Prelude.{IfSome};
ghost use Rattle.jiff_core.specs.Calendar.{IsWithin};
ghost use Rattle.posix_footer.specs.Items.{begins, begins_as, is_sign, number_of_digits};
ghost use Rattle.posix_footer.specs.Items.{quoted_at, name_at, number_at, part_at, clock_at};
ghost use Rattle.posix_footer.specs.Items.{signed_at, offset_at, ahead_at, daylight_offset_at};
ghost use Rattle.posix_footer.specs.Items.{time_at, week_at, julian_at, year_day_at, day_at};
ghost use Rattle.posix_footer.specs.Takes.{Takes, TakesAs};
ghost use Rattle.posix_footer.specs.Lawful.{IsLawfulDay, IsLawfulOffset};

use crate::parser::{ByteKind, Parser};
use crate::rule_types::DayForm;
use td_civil::Name;

/// The value of at most three digits.
fn value_of(digits: &[u8]) -> u16
    requires { length digits.now ≤ 3 }
    ensures { result ≡ number_of_digits digits.now }
{
    let mut number = 0;
    for digit in digits {
        number = 10 * number + u16::from(digit.saturating_sub(b'0'));
    }
    number
}

impl<'a> Parser<'a> {
    /// The text up to the `>` of a quoted name.
    #[tactic(auto, unfolding(crate::specs::Items::quoted_at))]
    fn quoted(&mut self) -> Option<&'a [u8]>
        ensures size { self.new.size ≡ self.old.size }
        ensures length { IfSome result (λ name. length name.now ≤ 32) }
        ensures value { TakesAs (λ name. name.now) result self.new.left.now
            (quoted_at self.old.left.now) }
    {
        let name = self.run(ByteKind::Quotable, 3, 32)?;
        self.skip(b'>')?;
        Some(name)
    }

    #[tactic(auto, unfolding(crate::specs::Items::name_at))]
    fn name_text(&mut self) -> Option<&'a [u8]>
        ensures size { self.new.size ≡ self.old.size }
        ensures length { IfSome result (λ name. length name.now ≤ 32) }
        ensures value { TakesAs (λ name. name.now) result self.new.left.now
            (name_at self.old.left.now) }
    {
        if self.eat(b'<') {
            self.quoted()
        } else {
            self.run(ByteKind::Letter, 3, 32)
        }
    }

    /// A name, quoted or not.
    pub(crate) fn name(&mut self) -> Option<Name>
        ensures size { self.new.size ≡ self.old.size }
        ensures value { Takes result self.new.left.now (name_at self.old.left.now) }
    {
        let text = self.name_text()?;
        let mut name = Name::new();
        name.append(text);
        Some(name)
    }

    /// A number from `low` to `high`, of `fewest` to `most` digits.
    #[tactic(auto, unfolding(crate::specs::Items::number_at))]
    fn number(&mut self, fewest: usize, most: usize, low: u16, high: u16) -> Option<u16>
        requires { most ≤ 3 }
        ensures size { self.new.size ≡ self.old.size }
        ensures range { IfSome result (λ number. (low ≤ number) × (number ≤ high)) }
        ensures value { Takes result self.new.left.now
            (number_at fewest most low high self.old.left.now) }
    {
        let digits = self.run(ByteKind::Digit, fewest, most)?;
        let number = value_of(digits);
        if low <= number && number <= high {
            Some(number)
        } else {
            None
        }
    }

    /// The minutes or seconds after `:`, or 0 if there is no `:`.
    #[tactic(auto, unfolding(crate::specs::Items::part_at))]
    fn part(&mut self) -> Option<u16>
        ensures size { self.new.size ≡ self.old.size }
        ensures range { IfSome result (λ part. part ≤ 59) }
        ensures value { Takes result self.new.left.now (part_at self.old.left.now) }
    {
        if self.eat(b':') {
            self.number(2, 2, 0, 59)
        } else {
            Some(0)
        }
    }

    /// Hours of a limited number of digits, with optional minutes and seconds: the sum in seconds.
    #[tactic(auto, unfolding(crate::specs::Items::clock_at))]
    fn clock(&mut self, digits: usize, greatest: u16) -> Option<u32>
        requires { digits ≤ 3 }
        ensures size { self.new.size ≡ self.old.size }
        ensures range { IfSome result (λ seconds. seconds < 3600 * (greatest + 1)) }
        ensures value { Takes result self.new.left.now
            (clock_at digits greatest self.old.left.now) }
    {
        let hours = self.number(1, digits, 0, greatest)?;
        let minutes = self.part()?;
        let seconds = self.part()?;
        Some(3600 * u32::from(hours) + 60 * u32::from(minutes) + u32::from(seconds))
    }

    /// Skips a sign, if the text begins with one, and returns whether it is `-`.
    fn sign(&mut self) -> bool
        ensures size { self.new.size ≡ self.old.size }
        ensures answer { result ≡ begins 45 self.old.left.now }
        ensures left { self.new.left.now
            ≡ (if begins_as is_sign self.old.left.now
            then drop 1 self.old.left.now
            else self.old.left.now) }
    {
        let negative = self.eat(b'-');
        if !negative {
            let _ = self.eat(b'+');
        }
        negative
    }

    /// A number of seconds with an optional sign.
    #[tactic(auto, unfolding(crate::specs::Items::signed_at))]
    fn signed(&mut self, digits: usize, greatest: u16) -> Option<i32>
        requires digits { digits ≤ 3 }
        requires greatest { greatest ≤ 167 }
        ensures size { self.new.size ≡ self.old.size }
        ensures range { IfSome result (λ seconds. IsWithin 604799 seconds) }
        ensures value { Takes result self.new.left.now
            (signed_at digits greatest self.old.left.now) }
    {
        let negative = self.sign();
        let seconds = self.clock(digits, greatest)? as i32;
        Some(if negative { -seconds } else { seconds })
    }

    /// An offset, in seconds east of UTC.
    #[tactic(auto, unfolding(crate::specs::Items::offset_at))]
    pub(crate) fn offset(&mut self) -> Option<i32>
        ensures size { self.new.size ≡ self.old.size }
        ensures range { IfSome result IsLawfulOffset }
        ensures value { Takes result self.new.left.now (offset_at self.old.left.now) }
    {
        let west = self.signed(2, 24)?;
        if west.unsigned_abs() < 86_400 {
            Some(-west)
        } else {
            None
        }
    }

    /// The offset of daylight saving time. If none is written it is an hour ahead of standard time.
    #[tactic(auto, unfolding(crate::specs::Items::daylight_offset_at, crate::specs::Items::ahead_at))]
    pub(crate) fn daylight_offset(&mut self, std: i32) -> Option<i32>
        requires { IsLawfulOffset std }
        ensures size { self.new.size ≡ self.old.size }
        ensures range { IfSome result IsLawfulOffset }
        ensures value { Takes result self.new.left.now (daylight_offset_at std self.old.left.now) }
    {
        if self.begins_as(ByteKind::OffsetStart) {
            self.offset()
        } else if std + 3600 < 86_400 {
            Some(std + 3600)
        } else {
            None
        }
    }

    /// A time of day, in seconds from midnight; it may be negative or over 24 hours.
    #[tactic(auto, unfolding(crate::specs::Items::time_at))]
    pub(crate) fn time(&mut self) -> Option<i32>
        ensures size { self.new.size ≡ self.old.size }
        ensures range { IfSome result (λ time. IsWithin 604799 time) }
        ensures value { Takes result self.new.left.now (time_at self.old.left.now) }
    {
        self.signed(3, 167)
    }

    /// A day in one of its three forms.
    #[tactic(auto, unfolding(crate::specs::Items::day_at))]
    pub(crate) fn day(&mut self) -> Option<DayForm>
        ensures size { self.new.size ≡ self.old.size }
        ensures range { IfSome result IsLawfulDay }
        ensures value { Takes result self.new.left.now (day_at self.old.left.now) }
    {
        if self.eat(b'J') {
            self.julian()
        } else if self.eat(b'M') {
            self.week()
        } else {
            self.year_day()
        }
    }

    #[tactic(auto, unfolding(crate::specs::Items::julian_at))]
    fn julian(&mut self) -> Option<DayForm>
        ensures size { self.new.size ≡ self.old.size }
        ensures range { IfSome result IsLawfulDay }
        ensures value { Takes result self.new.left.now (julian_at self.old.left.now) }
    {
        let number = self.number(1, 3, 1, 365)?;
        Some(DayForm::Julian(number))
    }

    #[tactic(auto, unfolding(crate::specs::Items::year_day_at))]
    fn year_day(&mut self) -> Option<DayForm>
        ensures size { self.new.size ≡ self.old.size }
        ensures range { IfSome result IsLawfulDay }
        ensures value { Takes result self.new.left.now (year_day_at self.old.left.now) }
    {
        let number = self.number(1, 3, 0, 365)?;
        Some(DayForm::YearDay(number))
    }

    /// Month, week and weekday, after the `M`.
    #[tactic(auto, unfolding(crate::specs::Items::week_at))]
    fn week(&mut self) -> Option<DayForm>
        ensures size { self.new.size ≡ self.old.size }
        ensures range { IfSome result IsLawfulDay }
        ensures value { Takes result self.new.left.now (week_at self.old.left.now) }
    {
        let month = self.number(1, 2, 1, 12)?;
        self.skip(b'.')?;
        let week = self.number(1, 2, 1, 5)?;
        self.skip(b'.')?;
        let weekday = self.number(1, 2, 0, 6)?;
        Some(DayForm::Week {
            month: month as u8,
            week: week as u8,
            weekday: weekday as u8,
        })
    }
}
