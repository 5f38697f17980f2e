//! The types of this crate are `Send` and `Sync`.
use crate::{Ahead, Date, DayForm, DstRule, Edge, Footer, FooterFault, YearOnset};

fn is_shared<T: Send + Sync>() {}

fn types_are_shared() {
    is_shared::<Footer>();
    is_shared::<DstRule>();
    is_shared::<Date>();
    is_shared::<DayForm>();
    is_shared::<Edge>();
    is_shared::<YearOnset>();
    is_shared::<Ahead>();
    is_shared::<FooterFault>();
}
