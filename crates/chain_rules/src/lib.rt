//! Units and rules of the chains, and which plans are legal.
//!
//! Floor: planning, on base_types and list_laws. Plain numbers alone: it knows no name, no netlist and no file.
//! Contract: `units_of` gives the rules of `specs/Rules.antt`, or the first fault of `specs/ChainFaults.antt`; the tests of a plan are exact by
//! `specs/Legality.antt`. Begin with `spec.rt` and `unit.rt`.
#![tactic(auto)]

mod belong;
mod build;
mod counts;
mod cuts;
mod ends;
mod faults;
mod index;
mod legal;
mod listing;
mod marks;
mod meets;
mod moves;
mod owners;
pub mod plain;
mod plan;
mod spans;
mod spec;
mod standing;
mod stretch;
mod unit;
mod units;

pub use belong::are_chains;
pub use moves::{can_move, can_move_in, can_swap, can_swap_in};
pub use plain::is_legal;
pub use plan::Plan;
pub use spec::{ChainSpec, ElementSpec, EndSpec, ListSpec, PathSpec, StepSpec};
pub use unit::{ChainRule, Position, Rules, Unit};
pub use units::units_of;
