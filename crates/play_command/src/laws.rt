ghost use Rattle.play_command.specs.Progress.{ProgressLaw};

/// Statements that are played one after the other say what the whole text of `play` says. The call does nothing; its contract is the law.
pub fn progress_law()
    ensures law { ProgressLaw }
{}
