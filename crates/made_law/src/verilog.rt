//! Laws of the Verilog of made designs, each carried by a contract.
ghost use Rattle.made_law.specs.Verilog.Laws.{WordsLaw, ModuleLaw, NetlistLaw, NoVerilogFaultLaw};

/// The tokens of the made Verilog are the words of its statements, and `endmodule` (IEEE 1364-2005, 3). It does nothing; its contract is
/// the law.
pub fn made_words_law()
    ensures law { WordsLaw }
{}

/// The made Verilog is the module of its statements (IEEE 1364-2005, annex A, in this profile). It does nothing; its contract is the
/// law.
pub fn made_module_law()
    ensures law { ModuleLaw }
{}

/// For 8 to 16384 units the made Verilog denotes the netlist of these units, and no fault of a Verilog text holds of it (IEEE
/// 1364-2005, 12, in this profile). It does nothing; its contract is the law.
pub fn made_verilog_law()
    ensures netlist { NetlistLaw }
    ensures no_fault { NoVerilogFaultLaw }
{}
