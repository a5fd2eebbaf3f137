//! A STIL text that is taken piece by piece from the STIL slot of a desk: its head, and then its gaps and statements.
//!
//! Floor: top, on desk_io, stil_types, stil_parts, stil_calls, stil_reader, stil_stream, base_types and `thiserror`.
//! Contract: what each call answers is what comes next of the bytes that the slot still has to give, and fewer calls are
//! left behind each (`specs/Inputs.antt`). Begin with `input.rt`.
#![tactic(auto)]

mod input;

pub use input::{Said, StilInput, StilStop};
