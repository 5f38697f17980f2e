//! The first onset of a calendar.
ghost use Rattle.std.specs.Prelude.{◌≡◌, ◌<◌, length};
ghost use Rattle.std.specs.Int.{int_min};
ghost use Rattle.vtimezone_reader.specs.Observing as spec;
ghost use Rattle.vtimezone_reader.specs.Onsets.{has_onset};
ghost use Rattle.vtimezone_reader.specs.Sound.{IsSoundCalendar};

use crate::Calendar;
use recurrence::Part;
use td_civil::Moment;

/// The earliest onset of all parts of the calendar. It allocates nothing.
pub fn first_onset(calendar: &Calendar) -> Moment
    requires { IsSoundCalendar calendar.now }
    ensures { spec.IsFirstOnset calendar.now.parts result.seconds }
{
    first_of_parts(calendar.parts.as_slice())
}

fn first_of_parts(parts: &[Part]) -> Moment
    requires { 0 < length parts.now }
    ensures { spec.IsFirstOnset parts.now result.seconds }
{
    let mut first = first_of_part(&parts[0]);
    for part in parts {
        first = earlier(first, first_of_part(part));
    }
    first
}

/// The earliest onset of a part. Those of its rule are not before its start.
fn first_of_part(part: &Part) -> Moment
    ensures { spec.IsLeast (has_onset part.now) result.seconds }
{
    let mut first = part.start;
    for date in part.dates.as_slice() {
        first = earlier(first, *date);
    }
    first
}

/// The earlier of two moments.
fn earlier(a: Moment, b: Moment) -> Moment
    ensures { result.seconds ≡ int_min a.seconds b.seconds }
{
    if b.seconds < a.seconds { b } else { a }
}
