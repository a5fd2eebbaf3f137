//! Patterns written anew for chains in another order, statement by statement, and what is counted of them.
//!
//! Floor: patterns, on base_types, stil_types, stil_tokens, stil_calls, stil_tester, stil_writer, pattern_laws and
//! retarget.
//! Contract: `Retargeting::write` gives the text that stil_writer's `specs/Loops.antt` says, each scan call being the one that
//! `moved_call` of retarget says, and counts by `specs/Figures.antt`. Begin with `retargeting.rt`.
#![tactic(auto)]

mod figures;
mod laws;
mod moving;
mod retargeting;
mod writing;

pub use figures::PatternFigures;
pub use laws::{figures_law, texts_law};
pub use retargeting::Retargeting;
