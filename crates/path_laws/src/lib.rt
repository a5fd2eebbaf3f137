//! Paths as scan chains of the tester: they have the bits that a STIL head declares.
//!
//! Floor: paths, on netlist_core, cell_table, chain_trace, stil_types, stil_head, stil_tester, traced_paths,
//! head_checks, path_chains and base_types.
//! Contract: `declared_law` (`specs/Laws.antt`).
#![tactic(auto)]

mod laws;

pub use laws::declared_law;
