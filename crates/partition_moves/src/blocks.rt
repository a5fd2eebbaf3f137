//! Blocks of places of a chain, with bounds by which a search passes over all places of a block at once.

mod area;
mod block;

pub use area::Area;
pub use block::{Block, PLACES, fill_blocks, least_links, no_block};
