//! The paths that a placed design or a STIL head asks for, and the chains of the design beside the head's declarations.
//!
//! Floor: paths, on base_types, cell_table, chain_trace, def_reader, head_checks, list_laws, netlist_core, stil_types
//! and traced_paths.
//! Contract: `paths_of` gives the paths of what is asked for by `specs/Asked.antt`; `check_chains` refuses exactly as
//! `specs/Chains.antt` says. Begin with `asked.rt`.
#![tactic(auto)]

mod asked;
mod chains;

pub use asked::paths_of;
pub use chains::check_chains;
