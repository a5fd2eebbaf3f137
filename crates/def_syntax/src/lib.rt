//! The statements of a DEF text (LEF/DEF 5.8, in this profile): what they are, how they are spelled, and how they are read.
//!
//! Floor: readers, on base_types, token_forms and def_tokens.
//! Contract: `read_design_text` answers exactly the statements that the tokens of the text spell by `specs/Grammar.antt` in the
//! sections of `specs/Frames.antt`, or its first fault of form, as `specs/Designs.antt` says. Begin with `design.rt`.
//!
//! What is read: `UNITS DISTANCE MICRONS n ;` outside sections, and the sections COMPONENTS, PINS, NETS and SCANCHAINS up to
//! `END DESIGN`: names, cells, placements, the nets of design pins, connections, and scan chains. Other statements, other
//! sections and other options pass unread; `NetParts` reads a net once more with the place of each of its options.
#![tactic(auto)]

mod at_once;
mod chain;
mod component;
mod design;
mod element;
mod found;
mod frame;
mod kinds;
mod laws;
mod net;
mod net_parts;
mod options;
mod outline;
mod pin;
mod placement;
mod reading;
mod statements;
mod units;
mod words;

pub use at_once::read_without_components;
pub use chain::{Chain, CommonPins, Partition, Terminal};
pub use component::Component;
pub use design::{DesignText, Located, Section};
pub use element::{Element, ElementList};
pub use frame::SectionKind;
pub use laws::options_law;
pub use net::{Connection, Net, NetStatement};
pub use net_parts::{NetOption, NetParts};
pub use pin::DesignPin;
pub use placement::Placement;
pub use reading::read_design_text;
pub use units::Units;
