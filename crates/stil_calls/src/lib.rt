//! The statements of STIL patterns beside the head: what each denotes, and its first fault (IEEE 1450-1999, Pattern
//! statements, in this profile).
//!
//! Floor: readers, on lane_kernels, base_types, token_forms, stil_tokens, stil_parts, stil_types, stil_syntax and
//! `memchr`.
//! Contract: `read_statement` answers the statement that the bytes denote beside the head (`specs/Statements.antt`), or its
//! first fault (`specs/Faults.antt`); `judge_part` is the judge of the parts of a text (`specs/Parts.antt`). A `Judging` tells
//! whether the lengths of the chains count. Begin with `statement.rt`.
#![tactic(auto)]

mod escape;
mod faults;
mod judging;
mod kinds;
mod laws;
mod part;
mod repeats;
mod scan;
mod statement;
mod strings;
mod twice;

pub use judging::Judging;
pub use laws::size_law;
pub use part::{judge_part, opened_name};
pub use repeats::{Escape, Repeat, Side};
pub use statement::{read_statement, read_statement_by};
