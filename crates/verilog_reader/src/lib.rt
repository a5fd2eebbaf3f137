//! Reads a flat Verilog netlist (IEEE 1364-2005, in this profile) into a `Netlist`, or answers its first fault.
//!
//! Floor: readers, on netlist_core, verilog_syntax, verilog_names, verilog_checks, base_types and token_forms.
//! Contract: `read_netlist` gives what `specs/Denoted.antt` says the text denotes, and refuses exactly as
//! `HoldsInVerilog` of verilog_checks says. Begin with `netlist.rt`.
#![tactic(auto)]

mod bits;
mod constant;
mod fold;
mod laws;
mod net_names;
mod netlist;
mod nets;
mod parts;

pub use laws::netlist_law;
pub use netlist::read_netlist;
