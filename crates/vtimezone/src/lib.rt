//! Calendars of time zones: the VTIMEZONE of a zone for a range (RFC 5545, section 3.6.5).
//!
//! `parts` gives the parts of `specs/ZoneParts.antt`. First come those of the changes up to the end
//! of the last transition's year. Changes that differ only in their moments share one part. Then
//! come the rules of the footer. The contract states what the parts mean. At each moment of the
//! range, the part in force has the offset, the flag and the name of the zone's state
//! (`specs/InForce.antt` of `recurrence`).
//!
//! `write` appends the text of `specs/CalendarText.antt`. That text, read as `specs/Spelled.antt`
//! defines, gives back what was written.
//!
//! Zones come from `zone_meaning`, rules from `recurrence`, and folded lines from `ical_lines`.
//! `actions` serves these calendars, and `vtimezone_reader` reads them.
#![tactic(auto)]

// The parts of a zone.
mod change_parts;
mod rule_parts;
mod zone_parts;

// The text of its calendar.
mod calendar_text;
mod values;

// Laws.
mod laws;

pub use calendar_text::write;
pub use laws::{
    calendar_reads_back, calendar_spells, one_in_force, parts_mean, zone_calendar_spells,
    zone_parts_are_spellable,
};
pub use recurrence::{Moments, Part, Range};
pub use zone_parts::parts;
