//! Zones: a zone file (RFC 9636) together with what it means, the state of local time at each
//! moment.
//!
//! [`zone_of`] makes the zone of a file, or reports `zone_fault` of `specs/Faults.antt`. [`at`]
//! gives the state at a moment, which is `zone_state` of `specs/State.antt`. [`observances`] gives
//! the changes of the state in a range (`specs/Observed.antt`). [`first_difference`] gives the
//! first moment at which two zones differ, `zone_difference` of `specs/Difference.antt`.
//!
//! Files are read by `tzif_reader` and footers by `posix_footer`. Releases are checked
//! (`release_check`, `admission`), installed and served (`vtimezone`, `actions`) by means of this
//! crate.
#![tactic(auto)]

// A zone, read from its file, and why bytes are not a zone.
mod reading;
mod release_data;
mod zone_fault;
mod zone_type;

// Its state at a moment, whether its footer continues its transitions, and whether its names can be
// printed.
mod agreement;
mod lookup;
mod zone_names;

// The observances of a range, and from when on they repeat.
mod observing;
mod repeating;
mod stepping;
mod walk;

// The first moment at which two zones differ.
mod alike;
mod deciding;
mod difference;

// Laws, and what may cross threads.
mod laws;
mod send_sync;

pub use agreement::footer_agrees;
pub use difference::first_difference;
pub use laws::{last_observance_tells_the_state, names_are_printable, observances_are_the_changes};
pub use lookup::at;
pub use observing::{Changes, observances};
pub use reading::{zone_from_lists, zone_of};
pub use repeating::repeats_from;
pub use zone_fault::ZoneFault;
pub use zone_names::has_printable_names;
pub use zone_type::{Zone, file, footer, leap_count, lists};
