//! Reader of zone files in the TZif format (RFC 9636), versions 2 to 4. The main call is [`read`]:
//! `Layout.antt` relates its result to the bytes, and `Faults.antt` defines the first fault of a
//! refused file. [`slim`] writes the file of a plan, which reads back as that plan. It depends on
//! `td_base` and `td_civil`; the crates that judge, serve and generate releases use it.
#![tactic(auto)]

// A zone file, and the error of a bad one.
mod reading;
mod tzif_fault;
mod zone;
mod zone_file;
mod zone_lists;

// Its frame: the header, the blocks and the footer.
mod block;
mod counts;
mod frame;
mod header;

// What its fields may hold.
mod contents;

// Numbers and texts in the bytes.
mod numbers;
mod text;

// Files of plans, and plans of known zones for tests.
pub mod known_plans;
mod slim_file;

// Theorems, and which types may cross threads.
mod laws;
mod send_sync;

pub use laws::{leap_lines_fit, one_zone_file, slim_file_reads_back};
pub use reading::read;
pub use slim_file::{Plan, slim};
pub use tzif_fault::TzifFault;
pub use zone_file::{LeapLine, MOST_BYTES, MOST_TRANSITIONS, ZoneFile};
pub use zone_lists::{ZoneLists, ZoneRest, lists_in, rest_of};
