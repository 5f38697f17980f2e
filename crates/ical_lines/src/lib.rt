//! Content lines of iCalendar (RFC 5545, section 3.1). [`line`] writes one folded
//! (`specs/Lines.antt`), [`append_folded`] writes a piece of one, and [`unfold`] reads lines back
//! (`specs/Unfolding.antt`). [`reads_back`] is the theorem that reading gives what was written, and
//! [`lines_fit`] that no line is too long. It depends on `td_base`; `vtimezone` writes with it and
//! `vtimezone_reader` reads.
#![tactic(auto)]

// Writing.
mod folding;

// Reading, and the error of a bad text.
mod line_fault;
mod reading;

// Theorems, and which types may cross threads.
mod laws;
mod send_sync;

pub use folding::{MOST_OCTETS, append_folded, line};
pub use laws::{lines_fit, reads_back};
pub use line_fault::BadLine;
pub use reading::unfold;
