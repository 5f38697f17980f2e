//! The law of a secondary of calendars (RFC 7808, section 4.2.2). When a zone is requested as a
//! calendar, the primary's answer always reads as the calendar of that name. No sync over the bytes
//! of such answers ends with a fault of an answer. What a mirror then keeps of a zone gives the
//! observances of the zone. No program calls anything here.
//!
//! That a text is the calendar of a zone is `IsCalendarOf` of `specs/Reading.antt`, and that a
//! mirror keeps one is `KeepsCalendar`. Which exchanges are those of a primary, and how a sync
//! cannot end over them, is in `specs/Endings.antt`. The laws are the contracts of
//! [`calendars_are_read`], [`syncs_are_understood`], [`syncs_hold`] and [`calendars_are_told`].
//! That no such text is too long is [`calendars_fit`].
//!
//! The crate stands on `calendar_mirror`, `mirror_world` and `vtimezone_reader`.
#![tactic(auto)]

mod laws;

pub use laws::{
    answers_are_sound, calendars_are_read, calendars_are_told, calendars_fit, syncs_are_understood,
    syncs_hold, syncs_settle,
};
