//! The types of this crate are `Send` and `Sync`.
use crate::Format;

/// Compiles only for types that are `Send` and `Sync`.
fn is_shared<T: Send + Sync>() {}

fn types_are_shared() {
    is_shared::<Format>();
}
