use std::sync::Wait;

/// A job of a worker thread. `does` is what it promises of its result.
pub trait Work {
    type Done;

    ghost does: { Self → Self.Done → Type 0 };

    /// Does the job. It may wait for input and output.
    fn run<R: Wait>(self, rt: &R) -> Self::Done
        ensures { does self result };
}
