//! The contracts of paths in a design and their writers once more, word for word. `scripts/freeze-contracts` writes this crate.
//!
//! Floor: contracts, on base_types, cell_table, netlist_core, stil_types, chain_rules, splice, chain_trace,
//! verilog_reader, path_links, verilog_writer, def_reader, design_elements, traced_paths, design_places, net_edit,
//! plan_paths, def_edit, def_writer, head_text, head_writer and path_numbers.
//! Each function is a public call's contract with the call as its body, so a contract that promises less is not proved here.
#![tactic(auto)]

pub mod chain_trace_calls;
pub mod def_writer_calls;
pub mod head_writer_calls;
pub mod net_edit_calls;
pub mod path_links_calls;
pub mod verilog_writer_calls;
