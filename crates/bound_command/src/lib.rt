//! The text of `bound`: for each chain of a placed design a length that no order of its units goes below, with the numbers that prove it,
//! from the texts of the cell table, the LEF, the Verilog and the DEF.
//!
//! Floor: top, on netlist_core, cell_table, lef_pins, def_reader, chain_trace, chain_rules, wire_cost, length_bound,
//! design_elements, traced_paths, design_places, stil_types, design_files, base_types, head_chains, path_numbers and
//! `itoa`.
//! Contract: `bound_text` gives the text that `specs/Bounds.antt` says, or the first fault of the files. Begin with `bound.rt`.
#![tactic(auto)]

mod bound;
mod chains;
mod lines;
mod report;

pub use bound::bound_text;
