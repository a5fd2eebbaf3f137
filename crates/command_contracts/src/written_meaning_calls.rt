//! The contracts of `written_meaning`.
ghost use Rattle.written_meaning.specs.Laws.{MeaningLaw};

/// As `written_meaning::meaning_law`.
pub fn meaning_law()
    ensures law { MeaningLaw }
{
    written_meaning::meaning_law()
}
