//! The written text of a STIL head whose chains change (IEEE 1450-1999, ScanStructures): other numbers and other lists of cells, every
//! other byte as it was.
//!
//! Floor: writers, on base_types, token_forms, splice, stil_tokens, stil_types, stil_parts, stil_syntax, stil_blocks,
//! stil_head, head_alike and list_laws.
//! Contract: `specs/Written.antt` says what is written, and the law of `specs/Laws.antt` what the written text denotes. Begin with
//! `laws.rt`.
#![tactic(auto)]

mod laws;

pub use laws::{head_law, mix_law, ready_law, text_law};
