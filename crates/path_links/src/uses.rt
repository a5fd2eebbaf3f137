//! How often nets stand in a netlist, counted once for all of them.
ghost use Rattle.std.specs.Prelude.{◌≡◌, ◌<◌, ◌+◌, ◌||◌, ◌==◌, ◌∷◌, [], ℕ, Bool, false, length, IfOk, All};
ghost use Rattle.std.specs.Prelude.{sum_by};
ghost use Rattle.std.specs.List.{list_any};
ghost use Rattle.netlist_core.specs.declared.netlist.NetId.{NetId as Net};
ghost use Rattle.netlist_core.specs.Netlists.{IsBitWithin, IsAssign, IsInstance, IsNetlist};
ghost use Rattle.path_links.specs.Free.{count_in, count_in_assign, count_in_instance, count_of, is_assign_of, is_free};
ghost use Rattle.path_links.specs.Uses.{AreCounts, AreMarks};

use base_types::NoMemory;
use netlist_core::{Assign, Bit, Instance, NetId, Netlist};
use std::alloc::Global;
use std::marker::Model;

/// A netlist, and of each of its nets how often it stands there (up to two) and whether an assign drives it as a whole.
/// Contracts see it as the netlist.
#[derive(Drop)]
pub(crate) struct Uses<'a> {
    netlist: &'a Netlist,
    counts: Vec<u8>,
    assigned: Vec<bool>,
}

impl<'a> Model for Uses<'a> {
    ghost use Rattle.netlist_core.specs.declared.netlist.Netlist.{Netlist as Lists};
    ghost use Rattle.path_links.specs.Uses.{AreUses};

    ghost Value = { Lists };

    ghost view = { λ u. u.netlist.now };

    ghost invariant = { λ u. AreUses u.netlist.now u.counts.items u.assigned.items };
}

/// Counts one more.
fn count_once(counts: &mut Vec<u8>, bit: Bit)
    requires within { IsBitWithin (length counts.old.items) bit }
    ensures count { length counts.new.items ≡ length counts.old.items }
    ensures counted { (f : Net → ℕ) → AreCounts counts.old.items f → AreCounts counts.new.items (λ net. f net + count_in net (bit ∷ [])) }
{
    if let Bit::Net(net) = bit {
        let at = net.0 as usize;
        counts[at] = if counts[at] == 0 { 1 } else { 2 };
    }
}

fn count_bits(counts: &mut Vec<u8>, bits: &[Bit])
    requires within { All (IsBitWithin (length counts.old.items)) bits.now }
    ensures count { length counts.new.items ≡ length counts.old.items }
    ensures counted { (f : Net → ℕ) → AreCounts counts.old.items f → AreCounts counts.new.items (λ net. f net + count_in net bits.now) }
{
    for bit in bits {
        count_once(counts, *bit);
    }
}

fn count_assign(counts: &mut Vec<u8>, assign: &Assign)
    requires within { IsAssign (length counts.old.items) assign.now }
    ensures count { length counts.new.items ≡ length counts.old.items }
    ensures counted { (f : Net → ℕ) → AreCounts counts.old.items f → AreCounts counts.new.items (λ net. f net + count_in_assign net assign.now) }
{
    count_bits(counts, assign.left.bits.as_slice());
    count_bits(counts, assign.right.bits.as_slice());
}

fn count_instance(counts: &mut Vec<u8>, placed: &Instance)
    requires within { IsInstance (length counts.old.items) placed.now }
    ensures count { length counts.new.items ≡ length counts.old.items }
    ensures counted { (f : Net → ℕ) → AreCounts counts.old.items f → AreCounts counts.new.items (λ net. f net + count_in_instance net placed.now) }
{
    for connection in placed.connections.as_slice() {
        count_bits(counts, connection.expr.bits.as_slice());
    }
}

/// Marks the net that is the whole left side of an assign whose right side is one net bit.
fn mark(assigned: &mut Vec<bool>, assign: &Assign)
    requires within { IsAssign (length assigned.old.items) assign.now }
    ensures count { length assigned.new.items ≡ length assigned.old.items }
    ensures marked { (test : Net → Bool) → AreMarks assigned.old.items test → AreMarks assigned.new.items (λ net. test net || is_assign_of net assign.now) }
{
    if let ([Bit::Net(net)], [Bit::Net(_)]) = (
        assign.left.bits.as_slice(),
        assign.right.bits.as_slice(),
    ) {
        assigned[net.0 as usize] = true;
    }
}

impl<'a> Uses<'a> {
    /// Counts in one pass over the netlist; a net takes two bytes of memory.
    pub(crate) fn of(alloc: Global, netlist: &'a Netlist) -> Result<Uses<'a>, NoMemory>
        requires netlist { IsNetlist netlist.now }
        ensures value { IfOk result (λ uses. uses ≡ netlist.now) }
    {
        let nets = netlist.nets.as_slice().len();
        let mut counts = vec![in alloc; 0u8; nets]?;
        let mut assigned = vec![in alloc; false; nets]?;
        for assign in netlist.assigns.as_slice() {
            count_assign(&mut counts, assign);
            mark(&mut assigned, assign);
        }
        for placed in netlist.instances.as_slice() {
            count_instance(&mut counts, placed);
        }
        Ok(Uses {
            netlist,
            counts,
            assigned,
        })
    }

    /// Whether a net bit stands at one place, besides the header and its declarations.
    pub(crate) fn stands_once(&self, net: NetId) -> bool
        requires within { net.0 < length self.now.nets }
        ensures value { result ≡ (count_of self.now net == 1) }
    {
        self.counts[net.0 as usize] == 1
    }

    /// Whether a port is free: besides the header and its declarations its net bit stands at one place, as the whole left side
    /// of an assign whose right side is one net bit.
    pub(crate) fn is_free(&self, port: NetId) -> bool
        requires within { port.0 < length self.now.nets }
        ensures value { result ≡ is_free self.now port }
    {
        self.counts[port.0 as usize] == 1 && self.assigned[port.0 as usize]
    }
}
