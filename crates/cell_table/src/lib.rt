//! Reads the table of scan cells, a TOML text that says which pins of a cell are its scan paths.
//!
//! Floor: readers, on base_types and `toml`.
//! Contract: `read_table` gives what `specs/Cells.antt` says that the text denotes, and refuses exactly where it
//! denotes nothing. Begin with `paths.rt`.
#![tactic(auto)]

mod cells;
mod laws;
mod paths;
mod pins;
mod small;
mod table;
mod values;

pub use cells::read_table;
pub use laws::{pins_law, table_law};
pub use paths::{OutPin, ScanPath};
pub use small::small_table;
pub use table::CellTable;
