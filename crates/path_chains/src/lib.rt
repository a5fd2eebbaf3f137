//! The chains of the patterns' tester (IEEE 1450-1999, ScanStructures) made of traced paths.
//!
//! Floor: paths, on lane_kernels, stil_types, stil_tester, retarget, net_edit, path_links, chain_trace, netlist_core,
//! cell_table, base_types and list_laws.
//! Contract: `chains_for` gives the chains that `specs/Ranked.antt` says. `cells_law` says that paths over the same steps make
//! chains of the same cells, and that ranks number the bits.
#![tactic(auto)]

mod laws;
mod ranked;

pub use laws::cells_law;
pub use ranked::chains_for;
