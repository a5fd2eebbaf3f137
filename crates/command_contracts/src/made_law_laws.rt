//! The contracts of `made_law`.
ghost use Rattle.made_law.specs.Laws.{BesideHeadLaw, PatternsLaw};

/// As `made_law::made_law`.
pub fn made_law()
    ensures files { BesideHeadLaw }
    ensures patterns { PatternsLaw }
{
    made_law::made_law()
}
