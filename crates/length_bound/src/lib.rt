//! A lower bound on the length of a chain, whatever the order of its units, with the numbers that prove it.
//!
//! Floor: planning, on wire_cost and base_types.
//! Contract: the numbers are a certificate as `specs/Certificates.antt` says, and its value is at most the length of each
//! order; so is what `tree` answers, which comes nearer and takes longer. Begin with `certificate.rt`.
#![tactic(auto)]

mod certificate;
mod growth;
mod laws;
mod least;
mod places;
mod trees;
mod weights;

pub use certificate::{Potentials, is_certificate, value};
pub use laws::{bound_law, tree_law};
pub use least::potentials;
pub use trees::tree;
