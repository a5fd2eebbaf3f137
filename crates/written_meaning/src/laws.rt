ghost use Rattle.written_meaning.specs.Laws.{MeaningLaw};

/// The patterns that are written by a plan mean on the written netlist what the read ones mean on the read one. The call does nothing; its
/// contract is the law.
pub fn meaning_law()
    ensures law { MeaningLaw }
{
    retargeted_patterns::texts_law();
    head_writer::fit_law();
    head_writer::anew_law();
}
