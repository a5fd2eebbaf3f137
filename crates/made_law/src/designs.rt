//! Laws of the texts that `make_design` gives, each carried by a contract.
ghost use Rattle.made_law.specs.Designs.Laws.{TableLaw, NoTableFaultLaw, MacrosLaw, NoLefFaultLaw, StatementsLaw, DesignLaw, NoDefFaultLaw};

/// The made cell table denotes a flop, a latch and a buffer, and nothing is wrong with it. It does nothing; its contract is the law.
pub fn made_table_law()
    ensures cells { TableLaw }
    ensures no_fault { NoTableFaultLaw }
{}

/// The made LEF denotes the macro of the flop, and nothing is wrong with it (LEF 5.8, MACRO). It does nothing; its contract is the
/// law.
pub fn made_macros_law()
    ensures macros { MacrosLaw }
    ensures no_fault { NoLefFaultLaw }
{}

/// The tokens of the made DEF are the words of its statements (LEF/DEF 5.8). It does nothing; its contract is the law.
pub fn made_statements_law()
    ensures law { StatementsLaw }
{}

/// The made DEF of 8 to 16384 units denotes the design of these units, and nothing is wrong with it by itself (LEF/DEF 5.8, in this
/// profile). It does nothing; its contract is the law.
pub fn made_design_law()
    ensures design { DesignLaw }
    ensures no_fault { NoDefFaultLaw }
{}
