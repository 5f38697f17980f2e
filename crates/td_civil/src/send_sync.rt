//! The types of this crate are `Send` and `Sync`.
use crate::{BadMoment, CivilDate, Local, Moment, Name, Observance};

fn is_shared<T: Send + Sync>() {}

fn types_are_shared() {
    is_shared::<Moment>();
    is_shared::<Name>();
    is_shared::<Local>();
    is_shared::<Observance>();
    is_shared::<BadMoment>();
    is_shared::<CivilDate>();
}
