use crate::Head;
use crate::scan::Scan;

/// One step at the beginning of the held bytes.
#[derive(Drop)]
pub enum Step {
    /// A head that is served, with its length in bytes.
    Taken(Head, usize),
    /// The status of a refusal: 400, 405 or 431.
    Refused(u16),
    /// The head is not complete yet; the state of the search.
    Waiting(Scan),
}
