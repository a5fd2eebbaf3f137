//! Orders the units within their chains: the plan of nearest neighbours, and plans that no reversed run makes shorter.
//!
//! Floor: planning, on lane_kernels, chain_rules, wire_cost and base_types.
//! Contract: `nearest_plan` gives what `specs/Nearest.antt` defines; a settled plan is what `specs/Steps.antt` says, for
//! every search of this and of the crates above. Begin with `reversals.rt`.
#![tactic(auto)]

mod blocks;
mod effort;
mod gains;
mod nearest;
mod order;
pub mod plain;
mod reversals;
mod searchable;

pub use effort::Effort;
pub use nearest::nearest_plan;
pub use order::{settle_order, settle_order_counted, settle_plan};
pub use reversals::{SearchCount, settle_chain, settle_chain_counted};
pub use searchable::are_searchable;
