//! Searches near-best plans: memberships anew, local search, small perturbations that are kept or undone, and settling.
//!
//! Floor: planning, on chain_tours, chain_rules, wire_cost, order_search, partition_moves and base_types.
//! Contract: `search_plan` gives a legal and settled plan, no longer than the plan as read and the nearest plan. What the
//! search inside proposes is tested before it is taken, so nothing but its safety and its end is proved. Begin with `best.rt`.
#![tactic(auto)]

mod best;
mod carries;
mod climb;
mod group;
mod halving;
mod near;
mod orders;
mod progress;
mod propose;
mod queue;
mod random;
mod shortening;

pub use best::{MeasuredPlan, search_plan};
pub use progress::{Progress, Quiet};
pub use shortening::shorten;
