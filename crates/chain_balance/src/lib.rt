//! Puts units into chains of other paths, so that the longest path is short.
//!
//! Floor: planning, on chain_rules and base_types. Plain numbers alone.
//! Contract: `longest` is the bits of the longest path; `balance` makes it short, and `least_law` says when no legal plan has a
//! shorter one. Begin with `specs/Balance.antt`.
#![tactic(auto)]

mod balance_plan;
mod cut_levels;
mod entry;
mod even;
mod gains;
mod groups;
mod laws;
mod paths;
mod rooms;
mod search;
mod transfer;
mod walk;
mod work;

pub use balance_plan::balance;
pub use laws::{least_law, total_law};
pub use paths::longest;
