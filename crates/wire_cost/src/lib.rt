//! Measures chains: the link between two places, the length of a chain and of a plan, and the sums of a chain's first links.
//!
//! Floor: planning, on chain_rules and base_types.
//! Contract: every number is the one that `specs/Lengths.antt` defines. Begin with `ends.rt`.
#![tactic(auto)]

mod blocks;
mod ends;
mod lengths;
mod links;
mod ranges;
mod rows;
mod sums;

pub use blocks::BLOCK;
pub use ends::Ends;
pub use lengths::{chain_length, plan_length, wire_of};
pub use links::{entry_of, exit_of, link, point_after, point_before, wire};
pub use ranges::{are_placed, are_within, is_chain_at};
pub use rows::Rows;
pub use sums::Sums;
