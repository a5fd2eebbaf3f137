//! Chains while they are searched: nodes in one list, the steps that change their order, and what each step would gain.
//!
//! Floor: planning, on base_types.
//! Contract: each call is safe and ends. Nothing else is proved: what a search makes of these chains is tested where it is
//! taken, in `plan_search`. Begin with `places.rt`.
#![tactic(auto)]

mod exchanges;
mod links;
mod lists;
mod nodes;
mod places;
mod thirds;

pub use links::{Change, Link, Reach};
pub use lists::{at, count, filled, item, part, part_mut, put};
pub use nodes::{Node, Scale, way};
pub use places::{Run, Step, Tour, Tours};
pub use thirds::{Near, Turn};
