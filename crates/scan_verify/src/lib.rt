//! Whether two sets of patterns on chains of the same cells do the same (IEEE 1450-1999, in this profile).
//!
//! Floor: patterns, on base_types, stil_types, stil_tester, stil_reader, stil_written, retarget, token_forms,
//! stil_tokens, stil_syntax, stil_blocks and head_alike.
//! Contract: `same_call` says whether two scan calls leave the same cells and pass alike from whatever cells, `same_statement` and
//! `same_patterns` whether statements are alike and their calls do so, and `back_law` that patterns that run alike are so. Begin with
//! `specs/Sameness.antt`.
#![tactic(auto)]

mod alike;
mod call;
mod laws;
mod patterns;
mod statement;

pub use alike::{StayingTokens, have_same_heading, have_same_names, have_same_tokens, same_head};
pub use call::{expected_by, first_difference, loaded_by, same_call};
pub use laws::back_law;
pub use patterns::{Sameness, same_patterns};
pub use statement::same_statement;
