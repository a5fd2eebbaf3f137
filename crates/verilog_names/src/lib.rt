//! The names of a flat Verilog module: plain names, the bits of vectors, and the table of the names with their nets.
//!
//! Floor: readers, on verilog_syntax, base_types, token_forms and `indexmap`.
//! Contract: values are those of `specs/Values.antt` and `specs/Declarations.antt`; `DeclaredNames` is seen as a list, as
//! `specs/NameTables.antt` says. Begin with `declared.rt`.
#![tactic(auto)]

mod bounds;
mod declared;
mod entry;
mod name_hash;
mod values;
mod vector;

pub use bounds::Bounds;
pub use declared::{DeclaredNames, First, Slot};
pub use entry::Entry;
pub use name_hash::{NameHasher, NameSet, NameState};
pub use values::{index_value, push_bit_name, unescaped};
pub use vector::{has_index, has_part, index_at, offset_in, width, width_or_one};
