//! What is written of STIL patterns (IEEE 1450-1999, Pattern statements): scan calls with other data, alone and in the block of a Loop.
//!
//! Floor: writers, on base_types, token_forms, stil_types, stil_tokens, stil_parts, stil_syntax, stil_calls and
//! stil_tester.
//! Contract: `stil_statement` gives the text that `specs/Calls.antt` says, and `stil_loop` that of `specs/Loops.antt`; `reads_law`
//! says that what is written for a scan call reads as the call that was meant. Begin with `statement.rt`.
#![tactic(auto)]

mod laws;
mod loops;
mod statement;

pub use laws::reads_law;
pub use loops::stil_loop;
pub use statement::stil_statement;
