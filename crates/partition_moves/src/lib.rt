//! Settles plans for all steps: reversed runs, units moved to another place, and units of two chains exchanged.
//!
//! Floor: planning, on chain_rules, wire_cost, order_search, base_types and list_laws.
//! Contract: a settled plan is what `order_search/specs/Steps.antt` says. Begin with `settle.rt`.
#![tactic(auto)]

mod blocks;
mod held;
mod lift;
mod moves;
mod partitions;
mod room;
mod settle;
mod spares;
mod straight;
mod swaps;
mod work;

pub use blocks::{Area, Block, PLACES, fill_blocks, least_links, no_block};
pub use room::Room;
pub use settle::{settle_all, settle_all_within};
