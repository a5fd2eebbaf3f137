//! The contracts of the readers once more, word for word. `scripts/freeze-contracts` writes this crate.
//!
//! Floor: contracts, on base_types, cell_table, netlist_core, stil_types, stil_parts, stil_head, stil_calls,
//! stil_reader, stil_stream, verilog_checks, verilog_reader, def_tokens, lef_pins and def_reader.
//! Each function is a public call's contract with the call as its body, so a contract that promises less is not proved here.
#![tactic(auto)]

pub mod cell_table_calls;
pub mod def_reader_calls;
pub mod lef_pins_calls;
pub mod netlist_core_calls;
pub mod stil_head_calls;
pub mod stil_parts_calls;
pub mod stil_reader_calls;
pub mod stil_stream_calls;
pub mod verilog_reader_calls;
