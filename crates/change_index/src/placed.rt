/// A number of a list, and its position there.
#[derive(Clone, Copy, Debug, PartialEq, Eq)]
pub struct Placed {
    pub change: u32,
    /// The position, counted from 0.
    pub at: usize,
}
