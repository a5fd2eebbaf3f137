ghost use Rattle.def_writer.specs.Placing.{PlacingLaw};

/// A netlist and a placed design that agree (LEF/DEF 5.8) do so on pins: two that both connect are joined exactly where they stand
/// in one net of the design. The call does nothing; its contract is the law.
pub fn placing_law()
    ensures law { PlacingLaw }
{}
