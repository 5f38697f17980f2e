//! The types of this crate may be sent to other threads and shared with them.
use crate::{BadList, ExpansionWriter, ListDoc, ListWriter, ListZone, Problem, ZoneTexts};

fn is_shared<T: Send + Sync>() {}

fn types_are_shared() {
    is_shared::<ListZone>();
    is_shared::<ListDoc>();
    is_shared::<BadList>();
    is_shared::<ZoneTexts<'_>>();
    is_shared::<ListWriter>();
    is_shared::<ExpansionWriter>();
    is_shared::<Problem>();
}
