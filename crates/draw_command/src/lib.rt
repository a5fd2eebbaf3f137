//! The text of `draw`: a picture of a placed design's scan chains in SVG, from the texts of the cell table, the LEF, the Verilog and the DEF.
//!
//! Floor: top, on netlist_core, cell_table, lef_pins, def_reader, chain_trace, chain_rules, wire_cost, chain_picture,
//! design_elements, traced_paths, design_places, stil_types, design_files, base_types, head_chains and path_numbers.
//! Contract: `draw_text` gives the picture that `specs/Files.antt` says, of the chains of `specs/Drawn.antt`, or the first fault of the files.
//! Begin with `draw.rt`.
#![tactic(auto)]

mod cells;
mod draw;
mod drawn;

pub use draw::{Picture, draw_text};
