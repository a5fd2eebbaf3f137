//! Traced paths in a placed design: whether their pins stand in its nets and their cells are placed, and where units and chains begin
//! and end (LEF/DEF 5.8).
//!
//! Floor: paths, on netlist_core, cell_table, chain_trace, def_tokens, lef_pins, def_reader, chain_rules, wire_cost,
//! base_types and list_laws.
//! Contract: `check_nets` refuses exactly as `specs/NetPins.antt` says, `check_places` and `ends_of` answer by `specs/Ends.antt`. Begin
//! with `ends.rt`.
#![tactic(auto)]

mod by_pin;
mod cells;
mod ends;
mod instances;
mod layout;
mod lines;
mod nets;
mod places;

pub use ends::ends_of;
pub use nets::check_nets;
pub use places::check_places;
