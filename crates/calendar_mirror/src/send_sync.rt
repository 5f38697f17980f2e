//! The types of this crate may be sent to other threads and shared with them.
use crate::{CalendarSyncFault, Judged};

fn is_shared<T: Send + Sync>() {}

fn types_are_shared() {
    is_shared::<CalendarSyncFault>();
    is_shared::<Judged>();
}
