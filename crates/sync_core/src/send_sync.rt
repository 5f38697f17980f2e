//! The types of this crate may be sent to other threads and shared with them.
use crate::{Heard, Mirror, Settled};

fn is_shared<T: Send + Sync>() {}

fn types_are_shared() {
    is_shared::<Mirror>();
    is_shared::<Heard>();
    is_shared::<Settled>();
}
