//! Laws of the checks together, each carried by a contract.
ghost use Rattle.design_files.specs.Laws.{ChainsLaw, MeasuredLaw};

use design_elements::elements_law;

/// Where the checks refused nothing, the chains belong to the paths. It does nothing; its contract is the law.
pub fn chains_law()
    ensures law { ChainsLaw }
{
    elements_law();
}

/// Where the checks refused nothing, the plan as read can be measured. It does nothing; its contract is the law.
pub fn measured_law()
    ensures law { MeasuredLaw }
{
    elements_law();
}
