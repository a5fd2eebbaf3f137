//! Tokens, numbers and faults of the texts, in one place: it hands on what the crates below hold.
//!
//! Floor: readers, on verilog_syntax, def_tokens, stil_tokens and base_types. No crate of the program stands on it.
#![tactic(auto)]

pub use base_types::{
    Fault, FileKind, Kind, Name, NoMemory, Point, ReadFault, Span, Spot, Text, Word, line_of,
    plain_name,
};
pub use def_tokens::{Statement, def_statements, read_decimal, read_integer};
pub use stil_tokens::stil_statements;
pub use verilog_syntax::verilog_tokens;
