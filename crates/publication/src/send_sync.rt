//! Desks and receipts are `Send` when their values are `Send` and `Sync`.
use crate::{Desk, Receipt};
use td_base::Value;

/// Compiles only for types that are `Send`.
fn sends<T: Send>(_value: &T) {}

fn sends_all<V: Value + Send + Sync>(desk: &Desk<V>, receipt: &Receipt<V>) {
    sends(desk);
    sends(receipt);
}
