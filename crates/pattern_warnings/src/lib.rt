//! What a user is warned of in STIL patterns (IEEE 1450-1999, Pattern statements): scan-out ports that statements between scans compare. What
//! such a port shows there belongs to the cell that stands last in its chain.
//!
//! Floor: patterns, on base_types, token_forms, stil_tokens, stil_types, stil_syntax and `indexmap`.
//! No clause speaks of the warnings. Begin with `warnings.rt`.
#![tactic(auto)]

mod given;
mod groups;
mod references;
mod warnings;

pub use warnings::PatternWarnings;
