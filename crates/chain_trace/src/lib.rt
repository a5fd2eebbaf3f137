//! Traces the scan path of a scan output through a netlist, and tells its bits and their parities.
//!
//! Floor: paths, on cell_table, netlist_core and base_types.
//! Contract: `trace` gives the only path that `specs/Paths.antt` allows, or the fault that `specs/Faults.antt` says is
//! met first. Begin with `path.rt`.
#![tactic(auto)]

mod bits;
mod drivers;
mod entry;
mod laws;
mod lines;
mod path;
mod ports;
mod tally;
mod tracer;
mod tracing;

pub use bits::bits_of;
pub use entry::{out_pin, scan_path, source_net};
pub use laws::{names_law, parity_law, path_law};
pub use lines::sink_line;
pub use path::{BitId, Path, PathBits, Sink, Source, Step};
pub use ports::{input_named, output_named, plain_of};
pub use tracer::Tracer;
pub use tracing::trace;
