//! The statements of a flat Verilog module (IEEE 1364-2005, in this profile): what they are, how they are spelled, and how
//! they are read.
//!
//! Floor: readers, on base_types and token_forms.
//! Contract: `read_statements` answers exactly the statements that the tokens of the text spell by `specs/Grammar.antt`,
//! or its first fault of form, as `specs/Module.antt` says. Begin with `statement.rt`.
//!
//! What is read: `module name ( name, .. ) ;`, also with an empty list or with none; `kind [m:n] name, .. ;` with the kinds
//! `input`, `output`, `inout`, `wire`, `tri`, `supply0` and `supply1`; `assign expression = expression ;`;
//! `cell name ( .pin(expression), .. ) ;`; `endmodule`. An expression is a name, `name[i]`, `name[m:n]`, a constant, or a
//! list of expressions in braces. Hierarchy, instance arrays, positional connections, parameters, ANSI headers and
//! behavioural code aren't read.
#![tactic(auto)]

mod bytes;
mod expression;
mod item_list;
mod kinds;
mod laws;
mod lexer;
mod number;
mod parser;
mod pieces;
mod reading;
mod source;
mod statement;
mod token_laws;
mod words;

pub use bytes::{is_blank, is_digit, is_word, is_word_start};
pub use item_list::Items;
pub use laws::grammar_law;
pub use lexer::{Verilog, verilog_lexer};
pub use number::is_digit_of;
pub use pieces::verilog_tokens;
pub use reading::{Placed, read_statements};
pub use statement::{Connection, Declared, Expression, Item, Range, Statement};
pub use token_laws::{name_law, seam_law, split_law};
pub use words::{is_identifier, is_reserved};
