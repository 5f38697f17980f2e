//! How a run ended may move between threads and be shared by them, if its doors and the server that
//! was followed may.
use crate::Outcome;

/// Accepts only types that threads may move and share.
fn is_shared<T: Send + Sync>() {}

fn types_are_shared<D: Send + Sync, U: Send + Sync>() {
    is_shared::<Outcome<D, U>>();
}
