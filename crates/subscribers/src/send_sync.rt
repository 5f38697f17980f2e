//! The types of this crate may be sent to other threads and shared with them. A test may not: it
//! runs on the thread that owns it.
use crate::{Notice, SubscribeFault, Subscribers, Wish, WishKind};

fn is_shared<T: Send + Sync>() {}

fn types_are_shared() {
    is_shared::<WishKind>();
    is_shared::<Wish>();
    is_shared::<Notice>();
    is_shared::<SubscribeFault>();
    is_shared::<Subscribers>();
}
