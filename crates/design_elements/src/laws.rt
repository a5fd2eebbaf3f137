//! What holds of the chains of every design.
ghost use Rattle.design_elements.specs.Laws.{ElementsLaw, OnceLaw, FewElementsLaw, FewChainsLaw};

/// In a sound design each chain has a list and each list an element. Where the chains of a design have no fault, no step of the
/// netlist's instances is named by two elements, and there are 65536 elements at most, so in a sound design 65536 chains at
/// most. It does nothing; its contract is the law.
pub fn elements_law()
    ensures elements { ElementsLaw }
    ensures once { OnceLaw }
    ensures few { FewElementsLaw }
    ensures few_chains { FewChainsLaw }
{}
