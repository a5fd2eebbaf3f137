//! The files of a placed design (cell table, LEF, Verilog, DEF) and the head of its patterns, read and checked beside each other.
//!
//! Floor: paths, on netlist_core, cell_table, lef_pins, verilog_checks, verilog_reader, def_syntax, def_reader,
//! chain_trace, chain_rules, wire_cost, design_elements, traced_paths, design_places, head_checks, stil_types,
//! stil_head, base_types, head_chains and path_numbers.
//! Contract: `read_design_files` gives what `specs/Stages.antt` says of the files, or the first fault of `specs/Faults.antt`.
#![tactic(auto)]

mod files;
mod head;
mod laws;
mod read;
mod ruled;
mod traced;

pub use laws::{chains_law, measured_law};
pub use read::{DesignFiles, read_design_files};
