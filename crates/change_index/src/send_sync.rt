//! An index is `Send` and `Sync`.
use crate::{ChangeIndex, NoMemory, Placed};

/// Compiles only for types that are `Send` and `Sync`.
fn is_shared<T: Send + Sync>() {}

fn types_are_shared() {
    is_shared::<ChangeIndex>();
    is_shared::<Placed>();
    is_shared::<NoMemory>();
}
