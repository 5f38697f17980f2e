//! The types of this crate may be sent to other threads and shared with them. A test may not: it
//! runs on the thread that owns it.
use crate::{Changed, Chosen, Delta, RuleKind};

fn is_shared<T: Send + Sync>() {}

fn types_are_shared() {
    is_shared::<Changed>();
    is_shared::<Delta>();
    is_shared::<RuleKind>();
    is_shared::<Chosen>();
}
