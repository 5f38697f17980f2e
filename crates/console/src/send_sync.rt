//! The types of this crate may be sent to other threads and shared with them.
use crate::{Line, Lines, Said, ShortLine};

fn is_shared<T: Send + Sync>() {}

fn types_are_shared() {
    is_shared::<Line>();
    is_shared::<Lines>();
    is_shared::<Said>();
    is_shared::<ShortLine>();
}
