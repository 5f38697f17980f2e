//! What a listener keeps of its connections may move to other threads, as the listener does.
use crate::{Intake, Timeouts};

/// Accepts only a value that may move to another thread.
fn sends<T: Send>(_value: &T) {}

fn sends_all(intake: &Intake, timeouts: &Timeouts) {
    sends(intake);
    sends(timeouts);
}
