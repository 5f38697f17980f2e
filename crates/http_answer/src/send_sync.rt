//! The plain data types are `Send` and `Sync`.
use crate::{Answer, Kind};

fn is_shared<T: Send + Sync>() {}

fn types_are_shared() {
    is_shared::<Answer>();
    is_shared::<Kind>();
}
