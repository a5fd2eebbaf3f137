//! Where ports are assigned.
ghost use Rattle.std.specs.Prelude.{◌≡◌, IfOk};
ghost use Rattle.path_links.specs.Edits.{assign_at};
ghost use Rattle.path_links.specs.Free.{is_bit_of, is_one_net};

use base_types::NoMemory;
use netlist_core::{Bit, NetId, Netlist};

fn is_bit_of(net: NetId, bit: Bit) -> bool
    ensures value { result ≡ is_bit_of net bit }
{
    match bit {
        Bit::Net(other) => other.0 == net.0,
        Bit::Zero | Bit::One | Bit::Unknown => false,
    }
}

fn is_one_net(net: NetId, bits: &[Bit]) -> bool
    ensures value { result ≡ is_one_net net bits.now }
{
    match bits {
        [bit] => is_bit_of(net, *bit),
        _ => false,
    }
}

/// The place of the first assign whose whole left side is the net. A place beyond 32 bits counts as want of memory.
pub(crate) fn assign_at(netlist: &Netlist, net: NetId) -> Result<Option<u32>, NoMemory>
    ensures value { IfOk result (λ place. place ≡ assign_at netlist.now net) }
{
    let assigns = netlist.assigns.as_slice();
    for i in 0..assigns.len() {
        if is_one_net(net, assigns[i].left.bits.as_slice()) {
            let Ok(place) = u32::try_from(i) else {
                return Err(NoMemory);
            };
            return Ok(Some(place));
        }
    }
    Ok(None)
}
