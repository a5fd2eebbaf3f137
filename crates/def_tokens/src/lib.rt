//! The tokens and statements of LEF and DEF texts (LEF/DEF 5.8), and the numbers that they hold.
//!
//! Floor: readers, on base_types, token_forms and `memchr`.
//! Contract: `def_tokens` and `def_statements` answer the one split of a text that `specs/DefSplit.antt` and
//! `specs/DefStatements.antt` say, and `read_integer` and `read_decimal` the values of `specs/Numbers.antt`. Begin with
//! `pieces.rt`.
#![tactic(auto)]

mod laws;
mod lexer;
mod numbers;
mod orient;
mod pieces;
mod statements;

pub use laws::{split_law, statement_law};
pub use lexer::{Def, def_lexer, def_tokens};
pub use numbers::{is_decimal, is_integer, read_decimal, read_integer};
pub use orient::Orient;
pub use statements::{Statement, def_statements, is_closed, statement_len};
