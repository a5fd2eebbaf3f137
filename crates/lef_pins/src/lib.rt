//! The macros of a LEF as far as places need them, and where a placed pin stands (LEF/DEF 5.8).
//!
//! Floor: readers, on base_types, token_forms, def_tokens, list_laws and `indexmap`.
//! Contract: `read_macros` gives what `specs/Denoted.antt` says a LEF denotes, and refuses exactly as `specs/Faults.antt` says;
//! `turn` and `pin_place` answer exactly the places of `specs/Places.antt`, over whole numbers of any size. Begin with
//! `file.rt`.
#![tactic(auto)]

mod blocks;
mod cuts;
mod ends;
mod file;
mod laws;
mod least;
mod macros;
mod names;
mod orient;
mod pins;
mod place;
mod statements;
mod stretch;

pub use def_tokens::Orient;
pub use file::read_macros;
pub use laws::{floor_law, form_law, lef_law};
pub use macros::{Macro, MacroPin, Macros};
pub use orient::turn;
pub use place::pin_place;
