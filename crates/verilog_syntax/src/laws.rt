//! Laws of the definitions, each carried by a contract.
ghost use Rattle.verilog_syntax.specs.Laws.{SpelledLaw, ReadLaw, NoStatementLaw, NoHeaderLaw};
ghost use Rattle.verilog_syntax.specs.Module.{ModuleLaw, FormFaultLaw, OneFormFaultLaw, OneModuleLaw};

/// What a text is read as is what its tokens spell by the forms of the grammar, and as parts; tokens that are refused spell
/// nothing; and a text is one module or has one first fault of form, never both.
pub fn grammar_law()
    ensures module { ModuleLaw }
    ensures form_fault { FormFaultLaw }
    ensures one_form_fault { OneFormFaultLaw }
    ensures one_module { OneModuleLaw }
    ensures spelled { SpelledLaw }
    ensures read { ReadLaw }
    ensures no_statement { NoStatementLaw }
    ensures no_header { NoHeaderLaw }
{}
