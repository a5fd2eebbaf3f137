//! The contracts of `made_law`.
ghost use Rattle.made_law.specs.Designs.Laws.{DesignLaw, MacrosLaw, NoDefFaultLaw, NoLefFaultLaw, NoTableFaultLaw, TableLaw};
ghost use Rattle.made_law.specs.Files.Laws.{FilesLaw, HeadFilesLaw};
ghost use Rattle.made_law.specs.Patterns.Laws.{HeadLaw, HeadTextLaw, NoHeadFaultLaw, NoPatternFaultLaw, NoWholeHeadFaultLaw, PatternsLaw, WholeHeadLaw};
ghost use Rattle.made_law.specs.Verilog.Laws.{NetlistLaw, NoVerilogFaultLaw};

/// As `made_law::made_table_law`.
pub fn made_table_law()
    ensures cells { TableLaw }
    ensures no_fault { NoTableFaultLaw }
{
    made_law::made_table_law()
}

/// As `made_law::made_macros_law`.
pub fn made_macros_law()
    ensures macros { MacrosLaw }
    ensures no_fault { NoLefFaultLaw }
{
    made_law::made_macros_law()
}

/// As `made_law::made_design_law`.
pub fn made_design_law()
    ensures design { DesignLaw }
    ensures no_fault { NoDefFaultLaw }
{
    made_law::made_design_law()
}

/// As `made_law::made_verilog_law`.
pub fn made_verilog_law()
    ensures netlist { NetlistLaw }
    ensures no_fault { NoVerilogFaultLaw }
{
    made_law::made_verilog_law()
}

/// As `made_law::made_head_law`.
pub fn made_head_law()
    ensures text { HeadTextLaw }
    ensures whole { WholeHeadLaw }
    ensures head { HeadLaw }
    ensures no_whole_fault { NoWholeHeadFaultLaw }
    ensures no_fault { NoHeadFaultLaw }
{
    made_law::made_head_law()
}

/// As `made_law::made_patterns_law`.
pub fn made_patterns_law()
    ensures patterns { PatternsLaw }
    ensures no_fault { NoPatternFaultLaw }
{
    made_law::made_patterns_law()
}

/// As `made_law::made_files_law`.
pub fn made_files_law()
    ensures law { FilesLaw }
    ensures with_head { HeadFilesLaw }
{
    made_law::made_files_law()
}
