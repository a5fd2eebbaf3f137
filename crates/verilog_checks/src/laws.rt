//! Laws of the definitions, each carried by a contract.
ghost use Rattle.verilog_checks.specs.CheckLaws.{NumberLaw, TwiceLaw, SelectLaw, TestLaw};

/// What the functions of the checks answer is the first statement that is bad by the words of `specs/Faults.antt`, and nothing
/// where none is. The call does nothing; its contract is the law.
pub fn check_law()
    ensures number { NumberLaw }
    ensures twice { TwiceLaw }
    ensures select { SelectLaw }
    ensures test { TestLaw }
{}
