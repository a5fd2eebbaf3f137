//! The text of `verify`: whether two sets of files, each the Verilog of a netlist and STIL patterns for it, are the same to a tester, or what
//! differs first.
//!
//! Floor: top, on base_types, token_forms, netlist_core, cell_table, verilog_syntax, verilog_checks, chain_trace,
//! traced_paths, head_checks, path_chains, stil_types, stil_tokens, stil_syntax, stil_parts, stil_head, stil_calls,
//! stil_reader, stil_tester, stil_written, head_alike, scan_verify, retarget, same_files, declared_chains and `itoa`.
//! Contract: `verify_text` says what `specs/Texts.antt` says, or answers the first fault of `specs/Faults.antt`; it says `same` exactly
//! where the sets are the same (`specs/Same.antt` of same_files). `read_new`, `are_same_sets` and
//! `next_statement` serve whoever goes on with two sets that are the same. `difference_note` tells a user what differs; no clause speaks
//! of that. Begin with `verify.rt`.
#![tactic(auto)]

mod head_notes;
mod items;
mod notes;
mod pair_notes;
mod places;
mod sets;
mod statement_notes;
mod text;
mod verify;

pub use items::next_statement;
pub use notes::{SetNames, difference_note};
pub use sets::are_same_sets;
pub use verify::{read_new, verify_text};
