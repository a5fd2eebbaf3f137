//! The least of some places or lines, and laws of lists that several crates need.
//!
//! Floor: ground, on nothing.
//! Contract: `lesser` and `line_if`, for places `lesser_place` and `found_if`, answer by `specs/Leasts.antt`. Begin with `least.rt`.
#![tactic(auto)]

mod least;

pub use least::{found_if, lesser, lesser_place, line_if};
