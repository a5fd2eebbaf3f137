//! Reads a DEF text into a `Design`, or answers its first fault (LEF/DEF 5.8, in this profile); and tells whether a netlist and a
//! design agree.
//!
//! Floor: readers, on netlist_core, cell_table, def_tokens, def_syntax, token_forms, base_types and list_laws.
//! Contract: `read_design` gives what `specs/Denoted.antt` says the text denotes, and refuses exactly as `specs/Faults.antt`
//! says; `agree` refuses exactly as `specs/Agreement.antt` says. Begin with `design.rt`.
#![tactic(auto)]

mod agreement;
mod cells;
mod chains;
mod connections;
mod convert;
mod design;
mod hashes;
mod index;
mod judge;
mod named;
mod named_rows;
mod names;
mod numbers;
mod reading;
mod side;

pub use agreement::agree;
pub use design::{
    Component, Design, DesignPin, Element, ElementList, EndText, Net, NetPin, ScanChainText,
};
pub use named::Named;
pub use named_rows::{ByName, NamedRows};
pub use reading::read_design;
