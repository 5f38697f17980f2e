//! The types of this crate may be sent to other threads and shared with them.
use crate::{Carried, Form, Moments, Part, Range, Rule, RuleBeyond};

fn is_shared<T: Send + Sync>() {}

fn types_are_shared() {
    is_shared::<Rule>();
    is_shared::<Form>();
    is_shared::<Carried>();
    is_shared::<RuleBeyond>();
    is_shared::<Range>();
    is_shared::<Moments>();
    is_shared::<Part>();
}
