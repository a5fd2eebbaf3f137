//! Draws scan chains as a picture in SVG: their cells, links, starts and stops as they stand, and a legend.
//!
//! Floor: writers, on base_types and `itoa`.
//! Contract: `svg_of` gives the text that `specs/Pictures.antt` says, by the sizes of `specs/Sizes.antt`; it is plain (`specs/Xml.antt`) and
//! holds a `line` for each link. Begin with `svg.rt`.
#![tactic(auto)]

mod bounds;
mod chain;
mod layers;
mod legend;
mod sheet;
mod svg;
mod totals;
mod xml;

pub use chain::{DrawnChain, Segment};
pub use svg::{link_count, svg_of};
