//! The written form of a STIL text whose statements change (IEEE 1450-1999, Pattern), piece by piece and whole.
//!
//! Floor: writers, on base_types, token_forms, stil_tokens, stil_types, stil_syntax, stil_parts, stil_calls,
//! stil_reader and stil_tester.
//! Contract: `size_law` says that the sizes alone tell `specs/Unbounded.antt` from what is read; `whole_law` that a text, each
//! statement of which is written so that it reads as it should, is read so whole; `pieces_law` that what is written piece by piece is
//! this text (`specs/Written.antt`). Begin with `laws.rt`.
#![tactic(auto)]

mod laws;

pub use laws::{front_law, other_law, pieces_law, size_law, whole_law};
