//! A flat netlist: nets, ports, assigns and instances, and which nets are joined (IEEE 1364-2005, in this profile).
//!
//! Floor: readers, on base_types.
//! Contract: two nets have one class exactly where `specs/Joining.antt` says that they are joined; `Ports` finds a port bit by its plain
//! name. Begin with `netlist.rt`.
#![tactic(auto)]

mod bit_list;
mod by_name;
mod classes;
mod form;
mod netlist;
mod pins;
pub mod plain;
mod ports;

pub use bit_list::Bits;
pub use by_name::add_place;
pub use classes::{Classes, classes_of};
pub use form::is_netlist;
pub use netlist::{
    Assign, Bit, Connection, Direction, Expr, Instance, NetId, NetName, Netlist, Port,
};
pub use pins::net_of;
pub use ports::Ports;
