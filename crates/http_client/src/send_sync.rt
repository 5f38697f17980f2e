//! The types of this crate are `Send` and `Sync`.
use crate::{BadReply, Reply};

fn is_shared<T: Send + Sync>() {}

fn types_are_shared() {
    is_shared::<Reply>();
    is_shared::<BadReply>();
}
