//! The scan paths of the ports that are asked for, all from one walk over the netlist.
//!
//! Floor: paths, on netlist_core, cell_table, chain_trace, base_types and list_laws.
//! Contract: `trace_asked` gives the paths of `specs/Traced.antt`, and refuses exactly as it says; `check_bits` and `step_bits` answer by
//! `specs/Bits.antt`. Begin with `paths.rt`.
#![tactic(auto)]

mod asks;
mod bits;
mod outputs;
mod paths;
mod ports;
mod shared;
mod tracing;

pub use asks::Ask;
pub use bits::{check_bits, step_bits};
pub use paths::trace_asked;
