//! What the statements in the head of a STIL text say: the chains in `ScanStructures`, the procedures and macros in `Procedures` and
//! `MacroDefs`, and the names in `UserKeywords` (IEEE 1450-1999, in this profile).
//!
//! Floor: readers, on base_types, token_forms, stil_tokens, stil_types and stil_syntax.
//! Contract: each function gives exactly what `specs/Statements.antt`, `specs/Chains.antt` and `specs/Callees.antt` say of its
//! statements; what is of no form gives none. Begin with `chain.rt`.
#![tactic(auto)]

mod block;
mod callee;
mod cells;
mod chain;
mod clause;
mod keywords;

pub use block::{
    behind_word, has_word, is_whole, is_worded, opens_maybe_named, start_of, take_text,
};
pub use callee::{ReadCallee, begins_shift, holds_shift, is_callee, read_callees, shift_begins};
pub use cells::{Cell, CellList};
pub use chain::{ChainParts, ReadChain, chain_at, read_chains};
pub use clause::Clause;
pub use keywords::read_keywords;
