ghost use Rattle.chain_maps.specs.Along.{InstancesLaw, AlongLaw, RearrangedLaw, PlannedLaw};
ghost use Rattle.chain_maps.specs.Kept.{KeepsBitsLaw};

/// After a legal plan no path loses its last bit. The call does nothing; its contract is the law.
pub fn keeps_law()
    ensures keeps { KeepsBitsLaw }
{}

/// Paths over the same steps make the same scan chains (IEEE 1450-1999, ScanStructures) on two netlists of the same instances, as a
/// rewired netlist has them, and the paths after a legal plan make chains of the same cells. The call does nothing; its contract is
/// the law.
pub fn ranks_law()
    ensures instances { InstancesLaw }
    ensures along { AlongLaw }
    ensures rearranged { RearrangedLaw }
    ensures planned { PlannedLaw }
{}
