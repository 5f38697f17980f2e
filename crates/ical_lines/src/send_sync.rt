//! The error of a bad text is `Send` and `Sync`.
use crate::BadLine;

/// Compiles only for types that are `Send` and `Sync`.
fn is_shared<T: Send + Sync>() {}

fn types_are_shared() {
    is_shared::<BadLine>();
}
