//! The types of this crate are `Send` and `Sync` when the zones are.
use crate::{Catalogue, Content, Entry, LeapStep, Leaps, Release};

/// Compiles only for types that are `Send` and `Sync`.
fn share<T: Send + Sync>(_value: &T) {}

fn shares_all<Z: Send + Sync>(
    content: &Content<Z>,
    release: &Release<Z>,
    entry: &Entry<Z>,
    catalogue: &Catalogue<Z>,
    leaps: &Leaps,
    step: &LeapStep,
) {
    share(content);
    share(release);
    share(entry);
    share(catalogue);
    share(leaps);
    share(step);
}
