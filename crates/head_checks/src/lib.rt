//! The paths that a STIL head asks for, and the declarations of the head beside these paths: whether they agree.
//!
//! Floor: paths, on netlist_core, cell_table, chain_trace, stil_types, stil_tokens, traced_paths, base_types and
//! list_laws.
//! Contract: `head_paths` gives the paths of what is asked for by `specs/Asked.antt`; `check_heads` refuses exactly as
//! `specs/Heads.antt` says; which cell a name of ScanCells names stands in `specs/CellNames.antt`. Begin with `heads.rt`.
#![tactic(auto)]

mod asked;
mod cells;
mod heads;
mod names;
mod paths;
mod tests;

pub use asked::{asks_of_head, head_paths};
pub use heads::check_heads;
