//! Laws of the definitions, each carried by a contract.
ghost use Rattle.verilog_writer.specs.VerilogText.{WrittenLaw};
ghost use Rattle.verilog_writer.specs.Inserted.{InsertedLaw};
ghost use Rattle.verilog_writer.specs.NetTexts.{NetsLaw, BitLaw};

/// A text in which some expressions are replaced by net bits is read as its statements with these replaced.
pub fn written_law()
    ensures written { WrittenLaw }
{}

/// And so is a text in which lines are put in besides: it has their wires behind the header, and their assigns at the end.
pub fn inserted_law()
    ensures inserted { InsertedLaw }
{}

/// The nets of a netlist are net bits with a text, and this is read as the same bit.
pub fn net_text_law()
    ensures nets { NetsLaw }
    ensures bit { BitLaw }
{}
