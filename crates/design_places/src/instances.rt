//! Instances by their numbers.
ghost use Rattle.std.specs.Prelude.{◌≡◌, option_map, slice_get};

use netlist_core::{Instance, Netlist};

/// The instance of a number.
pub(crate) fn instance_at(netlist: &Netlist, instance: u32) -> Option<&Instance>
    ensures value { option_map (λ placed. placed.now) result ≡ slice_get netlist.now.instances instance }
{
    netlist.instances.as_slice().get(instance as usize)
}
