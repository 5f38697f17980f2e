//! The work of a worker, and what it returns, may move to other threads whenever its door may.
use crate::{DoorDone, DoorWork};
use td_base::Door;

/// Accepts only a value that may move to another thread.
fn sends<T: Send>(_value: &T) {}

fn sends_all<D: Door + Send>(work: &DoorWork<D>, done: &DoorDone<D>) {
    sends(work);
    sends(done);
}
