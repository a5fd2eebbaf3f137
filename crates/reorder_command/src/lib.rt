//! Puts the units of a placed design's scan chains to other places, by which the chains are shorter or the longest path is short, and writes
//! the Verilog and the DEF anew.
//!
//! Floor: top, on netlist_core, cell_table, lef_pins, verilog_reader, def_reader, chain_trace, chain_rules, wire_cost,
//! order_search, plan_search, chain_balance, path_links, net_edit, plan_paths, path_chains, path_laws, traced_paths,
//! head_checks, stil_types, stil_head, design_elements, def_writer, design_places, design_files, verilog_writer,
//! def_edit, stil_tester, stil_calls, retarget, splice, head_text, head_writer, base_types, stil_reader, chain_maps,
//! head_chains, list_laws and path_numbers.
//! Contract: `reorder_texts` writes what `specs/Reordered.antt` says, by a plan of `specs/Goals.antt`, or answers the first fault of the
//! files. Begin with `reorder.rt`.
#![tactic(auto)]

mod balanced;
mod figures;
mod fixed;
mod goal;
mod limits;
mod patterns;
mod plans;
mod reorder;

pub use figures::{Figures, Lengths, Longest, Measured};
pub use goal::Goal;
pub use patterns::PatternPlan;
pub use plan_search::Progress;
pub use reorder::{Reordered, reorder_texts};
