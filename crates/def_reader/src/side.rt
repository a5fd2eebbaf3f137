/// Which scan pins of a cell are meant.
#[derive(Clone, Copy)]
pub(crate) enum Side {
    /// The in pins of its scan paths.
    In,
    /// Their out pins.
    Out,
}
