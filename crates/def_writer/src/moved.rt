//! Which pins of a placed design move where the scan paths of a netlist become others, and that the design behind these moves agrees
//! with the netlist with the edits (LEF/DEF 5.8, NETS).

mod laws;
mod moves;
mod pairs;
mod sites;

pub use laws::{agreement_law, moves_law, once_law};
pub use moves::moves_for;
