//! The types of this crate may be sent to other threads and shared with them.
use crate::{Calendar, CalendarFault};

fn is_shared<T: Send + Sync>() {}

fn types_are_shared() {
    is_shared::<Calendar>();
    is_shared::<CalendarFault>();
}
