//! The head and the pattern statements that a STIL text denotes, as data.
//!
//! Floor: readers, on base_types.
#![tactic(auto)]

mod head;
mod sorted;
mod statement;
mod tables;

pub use head::{Callee, ScanChainDecl, StilHead};
pub use statement::{BodyStatement, PatternStatement, ScanCall};
pub use tables::{Callees, Keywords};
