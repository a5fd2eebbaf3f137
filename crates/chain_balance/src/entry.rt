//! A path that is reached by giving.

/// A path, and the chains by which it is reached.
#[derive(Clone, Copy)]
pub(crate) struct Entry {
    /// The number of the path.
    pub(crate) path: usize,
    /// The chain that can give a unit.
    pub(crate) giver: usize,
    /// The chain of the path that can take it.
    pub(crate) taker: usize,
    /// The number of the entry whose path gives.
    pub(crate) parent: usize,
}
