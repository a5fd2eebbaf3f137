//! The checks of a placed design, of its netlist and of a STIL head beside each other, in one place.
//!
//! Floor: paths, on design_elements, traced_paths, design_places, head_checks, design_files, head_chains and
//! path_numbers.
//! Contract: each call's stands in the crate that it is handed on from.
#![tactic(auto)]

pub use design_elements::elements_of;
pub use design_files::{chains_law, measured_law};
pub use design_places::{check_nets, check_places, ends_of};
pub use head_chains::{check_chains, paths_of};
pub use head_checks::check_heads;
pub use path_numbers::path_specs;
pub use traced_paths::check_bits;
