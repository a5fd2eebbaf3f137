//! Carries a log of fails of one set of patterns back to another set that does the same (IEEE
//! 1450-1999, in this profile).
//!
//! Floor: patterns, on base_types, stil_types, stil_tester, stil_reader, stil_written, scan_verify and retarget.
//! Contract: `read_log` answers the lines that a text says, or its first fault (`specs/Logs.antt`).
//! `map_fail` gives the comparison of an old call that isn't met exactly where the given one of the
//! new call isn't, from whatever cells (`specs/Fails.antt`). `map_log`, and `LogMapping` over
//! statements that come one after the other, give the log of the first patterns that a log of the
//! second ones stands for (`specs/Mapped.antt`). Begin with `specs/FailLogs.antt`.
#![tactic(auto)]

mod block;
mod fail;
mod line;
mod log;
mod mapping;
mod numbered;
mod read;

pub use fail::map_fail;
pub use line::LogLine;
pub use log::map_log;
pub use mapping::LogMapping;
pub use read::read_log;
