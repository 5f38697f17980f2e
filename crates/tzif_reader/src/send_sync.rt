//! The types of this crate are `Send` and `Sync`.
use crate::{LeapLine, Plan, TzifFault, ZoneFile};

fn is_shared<T: Send + Sync>() {}

fn types_are_shared() {
    is_shared::<ZoneFile>();
    is_shared::<LeapLine>();
    is_shared::<Plan<'static>>();
    is_shared::<TzifFault>();
}
