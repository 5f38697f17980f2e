use crate::turn::{KeepsWork, Turn};
use crate::work::Work;
use std::thread::PromisedHandle;

/// A job that was started and was not joined yet.
#[derive(Drop)]
pub enum Running<W: Work> {
    /// A thread does it.
    InThread(PromisedHandle<Turn<W, W::Done>, KeepsWork<W>>),
    /// It is done at the join.
    AtJoin(W),
}
