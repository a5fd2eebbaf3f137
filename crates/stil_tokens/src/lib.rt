//! The tokens and statements of STIL texts (IEEE 1450-1999, clause 6).
//!
//! Floor: readers, on lane_kernels, base_types, token_forms and `memchr`.
//! Contract: `stil_tokens` and `stil_statements` answer the one split of a text that `specs/StilSplit.antt` and
//! `specs/StilStatements.antt` say. Begin with `pieces.rt`.
#![tactic(auto)]

mod bytes;
mod ends;
mod laws;
mod lexer;
mod pieces;
mod statements;

pub use bytes::{is_blank, is_mark, is_quote, is_run, run_len};
pub use ends::{depth_behind, token_ends};
pub use laws::{split_law, statement_law};
pub use lexer::{Stil, stil_lexer, stil_tokens};
pub use statements::{Statement, is_closed, statement_len, stil_statements};
