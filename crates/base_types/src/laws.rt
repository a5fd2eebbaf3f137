ghost use Rattle.base_types.specs.FirstFault.{FaultLaw};

/// Faults are ordered, so that a command has one first fault at most. It does nothing; its contract is the law.
pub fn fault_law()
    ensures law { FaultLaw }
{}
