//! Makes test designs of any size: a cell table, a LEF, a Verilog, a DEF and a STIL that belong together.
//!
//! Floor: top, on base_types.
//! Contract: `make_design` gives the five texts byte for byte, as `specs/Made.antt` says them, none larger than what is read. Begin with `files.rt`.
#![tactic(auto)]

mod cells;
mod chains;
mod def;
mod files;
mod numbers;
mod pieces;
mod stil;
mod verilog;

pub use files::{Files, make_design};
