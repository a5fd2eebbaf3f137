//! Decides at run time what the tester and retargeting ask for: that chains and calls are
//! well-formed; and scan calls by single shifts, against which the tester's are held. For tests and
//! benchmarks; chains that are traced and calls that are read need none.

mod calls;
mod chains;
mod shifts;

pub use calls::is_call_for;
pub use chains::are_chains;
pub use shifts::call_by_shifts;
