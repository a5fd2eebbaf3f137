//! Traced paths as numbers, beside a design or without one.
//!
//! Floor: paths, on base_types, cell_table, chain_rules, chain_trace, def_reader, list_laws, netlist_core, path_links
//! and traced_paths.
//! Contract: `path_specs` answers by `specs/Numbers.antt`. Begin with `numbers.rt`.
#![tactic(auto)]

mod extras;
mod free;
mod numbers;

pub use numbers::path_specs;
