//! Writes the DEF of a placed design after a plan of its scan chains (LEF/DEF 5.8, in this profile).
//!
//! Floor: writers, on netlist_core, cell_table, chain_trace, chain_rules, path_links, net_edit, plan_paths,
//! traced_paths, def_tokens, def_syntax, def_layout, def_edit, def_reader, design_elements, design_places, base_types,
//! token_forms, list_laws and path_numbers.
//! Contract: `def_text` writes the text of `specs/DefTexts.antt`, whose chains are those of `specs/PlanChains.antt`. Begin with `text.rt`.
#![tactic(auto)]

mod chains;
mod elements;
mod listing;
mod moved;
mod placing;
mod text;
mod traced;
mod units;

pub use moved::{agreement_law, moves_for, moves_law, once_law};
pub use placing::placing_law;
pub use text::def_text;
