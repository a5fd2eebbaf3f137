//! The tokens of a STIL head beside those of one whose chains are declared anew (IEEE 1450-1999, ScanStructures): what the second
//! denotes, and which of its tokens stay.
//!
//! Floor: writers, on base_types, token_forms, stil_tokens, stil_types, stil_parts, stil_syntax, stil_blocks, stil_head
//! and list_laws.
//! Contract: the laws of `specs/Laws.antt`, `specs/Trees.antt`, `specs/Chains.antt`, `specs/Cells.antt` and `specs/Erased.antt`, on
//! tokens side by side, `specs/Steps.antt`. Begin with `laws.rt`.
#![tactic(auto)]

mod laws;

pub use laws::{clause_law, head_law, tree_law};
