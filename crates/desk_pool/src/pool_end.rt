/// The result of running jobs with a foreground task.
#[derive(Debug, Drop)]
pub enum PoolEnd<D> {
    /// All jobs ran: their results, in the order of the jobs.
    All(Vec<D>),
    /// A job could not be started: the results of those before it.
    NotStarted(Vec<D>),
    /// Out of memory; nothing was started.
    NoMemory,
}
