//! The text of `play`: patterns played on the scan chains of a netlist, cell by cell, from the texts of the cell table, of the Verilog and of
//! the head of the patterns, and from their statements as they come.
//!
//! Floor: top, on cell_table, netlist_core, chain_trace, stil_types, stil_calls, stil_reader, stil_tester, base_types,
//! declared_chains and `itoa`.
//! Contract: what is said stands in `specs/Plays.antt`, and what is said of files in `specs/Files.antt`; `Playing` says it statement by
//! statement (`specs/Progress.antt`), over `read_declared`, which reads all before the patterns. Begin with `playing.rt`.
#![tactic(auto)]

mod device;
mod laws;
mod lines;
mod playing;

pub use device::DeviceKind;
pub use laws::progress_law;
pub use playing::Playing;
