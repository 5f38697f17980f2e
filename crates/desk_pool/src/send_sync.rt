//! The flag may be sent to another thread, and each sign to the thread of its worker.
use crate::{StopFlag, StopSign};

fn is_sent<T: Send>() {}

fn types_are_sent() {
    is_sent::<StopFlag>();
    is_sent::<StopSign>();
}
