//! The client side of the service (RFC 7808, sections 5.2 and 5.3; RFC 9112). It writes requests to
//! another time zone server as bytes of HTTP/1.0, and reads the replies.
//!
//! [`request`] appends `request_text` of `specs/Requests.antt`, and [`request_calendar`] the same
//! for calendars (`specs/CalendarRequests.antt`). [`read`] gives the reply in the bytes, as
//! `IsReading` of `specs/Replies.antt` defines it. [`one_reading`] is the theorem that there is
//! only one. Nothing is sent or received here. It depends on `td_base`, `httparse` and
//! `percent_encoding`; `mirror` and `calendar_mirror` use it.
#![tactic(auto)]

// Writing requests.
mod calendar_requesting;
mod requesting;

// Reading replies.
mod fields;
mod framing;
mod limits;
mod reading;
mod reply;

// Theorems, and which types may cross threads.
mod laws;
mod send_sync;

pub use calendar_requesting::request_calendar;
pub use laws::{calendar_requests_are_heads, one_reading, requests_are_heads};
pub use limits::MOST_FIELDS;
pub use reading::read;
pub use reply::{BadReply, Reply};
pub use requesting::{ESCAPED, request};
