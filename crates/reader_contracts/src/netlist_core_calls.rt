//! The contracts of `netlist_core`.
ghost use Rattle.netlist_core.specs.Joining.{AreClassesOf};
ghost use Rattle.netlist_core.specs.Netlists.{IsNetlist, net_at};
ghost use Rattle.std.specs.List.{HoldsAt};
ghost use Rattle.std.specs.Prelude.{IfOk, IsTrue, length, slice_index, ◌<◌, ◌↔◌, ◌≡◌};

use base_types::{Name, NoMemory};
use netlist_core::{Classes, NetId, Netlist};
use std::alloc::Global;

/// As `netlist_core::classes_of`.
pub fn classes_of(alloc: Global, netlist: &Netlist) -> Result<Classes, NoMemory>
    requires netlist { IsNetlist netlist.now }
    ensures value { IfOk result (λ classes. AreClassesOf netlist.now classes) }
{
    netlist_core::classes_of(alloc, netlist)
}

/// As `netlist_core::Classes::class_of`.
pub fn classes_class_of(classes: &Classes, net: NetId) -> NetId
    requires within { net.0 < length classes.now }
    ensures value { result.0 ≡ slice_index classes.now net.0 }
{
    classes.class_of(net)
}

/// As `netlist_core::net_of`.
pub fn net_of(netlist: &Netlist, instance: u32, pin: &Name) -> Option<NetId>
    requires within { instance < length netlist.now.instances }
    ensures value { HoldsAt (λ i. result ≡ net_at pin.now i) netlist.now.instances instance }
{
    netlist_core::net_of(netlist, instance, pin)
}

/// As `netlist_core::is_netlist`.
pub fn is_netlist(alloc: Global, netlist: &Netlist) -> Result<bool, NoMemory>
    ensures value { IfOk result (λ sound. IsTrue sound ↔ IsNetlist netlist.now) }
{
    netlist_core::is_netlist(alloc, netlist)
}
