//! The scan chains that the head of a STIL text declares on the paths of a netlist, from the texts of the cell table, of the Verilog and of
//! the head.
//!
//! Floor: paths, on base_types, cell_table, chain_trace, head_checks, netlist_core, path_chains, path_laws, stil_calls,
//! stil_head, stil_parts, stil_reader, stil_syntax, stil_tester, stil_tokens, stil_types, token_forms, traced_paths,
//! verilog_checks and verilog_reader.
//! Contract: what the files denote stands in `specs/Files.antt`, what may be wrong with them and with patterns behind the head in
//! `specs/Faults.antt`; `read_declared` reads all before the patterns (`specs/Stages.antt`). Begin with `declared.rt`.
#![tactic(auto)]

mod declared;

pub use declared::{Declared, read_declared};
