//! The text of the scan path of an output, from the texts of the cell table and of the netlist.
//!
//! Floor: top, on cell_table, netlist_core, chain_trace, verilog_checks, verilog_reader and base_types.
//! Contract: `path_text` gives the text that `specs/Reports.antt` says, or the first fault.
#![tactic(auto)]

mod report;
mod steps;

pub use report::path_text;
