//! What crosses from the installing thread to the serving threads, and the faults.
use crate::InstallFault;
use catalogue::Catalogue;
use publication::{Desk, Receipt};
use zone_meaning::Zone;

/// Accepts only a value that may move to another thread.
fn sends<T: Send>(_value: &T) {}

/// Accepts only a value that threads may share.
fn share<T: Send + Sync>(_value: &T) {}

fn sends_all(
    desk: &Desk<Catalogue<Zone>>,
    receipt: &Receipt<Catalogue<Zone>>,
    fault: &InstallFault,
) {
    sends(desk);
    sends(receipt);
    share(fault);
}
