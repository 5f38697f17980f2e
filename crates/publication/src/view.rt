//! What the invariant of what is shown knows of a seat. No value of these types exists at run time.

use std::collections::LinkedList;

/// The role of a seat: no longer used, the publisher, or a desk.
pub enum SeatRole {
    Spent,
    Publisher,
    Desk,
}

/// The identity of a history.
pub struct Home {
    pub number: u64,
    pub log: u64,
    pub cells: u64,
}

/// The state of a seat: its history, the values that it has published, entered or learned, and how
/// many times it has entered.
pub struct View<V> {
    pub role: SeatRole,
    pub list: LinkedList<V>,
    pub enters: u64,
    pub home: Home,
}
