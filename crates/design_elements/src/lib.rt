//! The chains of a design as numbers, or the first fault of what they name (LEF/DEF 5.8, SCANCHAINS).
//!
//! Floor: paths, on netlist_core, cell_table, lef_pins, def_reader, chain_rules, base_types and list_laws.
//! Contract: `elements_of` gives the chains of `specs/Elements.antt`, and refuses exactly as `specs/Faults.antt` says. Begin with
//! `elements.rt`.
#![tactic(auto)]

mod cells;
mod count;
mod elements;
mod first;
mod judge;
mod laws;
mod numbers;
mod partitions;
mod pins;
mod specs;
mod twice;

pub use elements::elements_of;
pub use laws::elements_law;
