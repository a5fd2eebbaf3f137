//! The text of `check`: whether a placed design, its scan chains and its netlist agree, and how long the chains are, from the texts of the
//! cell table, the LEF, the Verilog and the DEF.
//!
//! Floor: top, on netlist_core, cell_table, lef_pins, def_reader, chain_trace, chain_rules, wire_cost, design_elements,
//! traced_paths, design_places, stil_types, design_files, base_types, head_chains and path_numbers.
//! Contract: `check_text` gives the text that `specs/Checks.antt` says, or the first fault of the files. Begin with `check.rt`.
#![tactic(auto)]

mod check;
mod report;

pub use check::check_text;
