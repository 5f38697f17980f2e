//! What is printed of a calendar.
ghost use Rattle.std.specs.Prelude.{ℕ, List, ℤ};
ghost use Rattle.vtimezone_reader.specs.declared.calendar_type.Calendar.{Calendar};
ghost use Rattle.run_laws.specs.Onsets.{PrintsWithin};
ghost use Rattle.run_laws.specs.Runs.{CalendarTells};

/// Each line that `calmirror` prints of a calendar is that of an onset in the range that was asked
/// for, and before the calendar's own end (RFC 7808, section 5.3). Fails if TZUNTIL is passed over.
pub fn printed_onsets_are_in_range()
    ensures { (calendar : Calendar) (start end : ℤ) (lines : List ℕ)
        → CalendarTells calendar start end lines → PrintsWithin calendar start end lines }
{}
