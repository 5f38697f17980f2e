//! The types of this crate may be sent to other threads and shared with them.
use crate::{SyncFault, Understood};

fn is_shared<T: Send + Sync>() {}

fn types_are_shared() {
    is_shared::<SyncFault>();
    is_shared::<Understood>();
}
