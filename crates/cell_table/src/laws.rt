ghost use Rattle.cell_table.specs.Entries.{OneTableLaw, NoFaultLaw, PinsLaw, OneCellPinsLaw};

/// A text denotes the cells of one table at most, and then it has no fault. It does nothing; its contract is the law.
pub fn table_law()
    ensures one { OneTableLaw }
    ensures no_fault { NoFaultLaw }
{}

/// In each cell that a text denotes each pin stands once, over all its paths; so it is in a table of one cell whose in pin
/// isn't its out pin. It does nothing; its contract is the law.
pub fn pins_law()
    ensures table { PinsLaw }
    ensures one { OneCellPinsLaw }
{}
