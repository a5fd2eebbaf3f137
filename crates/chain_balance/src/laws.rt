//! The laws of the definitions, which know nothing of the code.
ghost use Rattle.chain_balance.specs.Balance.{LeastLaw, TotalLaw};

/// Where each unit has one bit, a closed set of nearly longest paths shows that no legal plan has a shorter longest path. It
/// does nothing; its contract is the law.
pub fn least_law()
    ensures least { LeastLaw }
{}

/// The bits of all paths together are those outside all units, and those of the units. It does nothing; its contract is the law.
pub fn total_law()
    ensures total { TotalLaw }
{}
