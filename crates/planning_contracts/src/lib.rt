//! The contracts of planning once more, word for word. `scripts/freeze-contracts` writes this crate.
//!
//! Floor: contracts, on base_types, lane_kernels, chain_rules, wire_cost, length_bound, order_search and
//! partition_moves.
//! Each function is a public call's contract with the call as its body, so a contract that promises less is not proved here.
#![tactic(auto)]

pub mod chain_rules_calls;
pub mod lane_kernels_calls;
pub mod length_bound_calls;
pub mod order_search_calls;
pub mod partition_moves_calls;
pub mod wire_cost_calls;
