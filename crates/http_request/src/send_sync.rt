//! The plain data types are `Send` and `Sync`.
use crate::{Head, Next};

fn is_shared<T: Send + Sync>() {}

fn types_are_shared() {
    is_shared::<Head>();
    is_shared::<Next>();
}
