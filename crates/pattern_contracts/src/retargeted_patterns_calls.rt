//! The contracts of `retargeted_patterns`.
ghost use Rattle.retarget.specs.Moved.{moved_call};
ghost use Rattle.retargeted_patterns.specs.Progress.{after_writing};
ghost use Rattle.std.specs.Prelude.{IfOk, OnErr, OnOk, ◌≡◌};
ghost use Rattle.stil_calls.specs.Statements.{AreAccepted};
ghost use Rattle.stil_writer.specs.Loops.{written_with};

use base_types::{NoMemory, Text};
use retargeted_patterns::Retargeting;
use std::alloc::Global;
use stil_types::PatternStatement;

/// As `retargeted_patterns::Retargeting::write`.
pub fn retargeting_write(
    retargeting: &mut Retargeting,
    alloc: Global,
    statement: &PatternStatement,
) -> Result<Text, NoMemory>
    requires accepted { AreAccepted retargeting.old.head statement.now }
    ensures text { IfOk result (λ text. text ≡ written_with retargeting.old.head.chains (moved_call retargeting.old.old_chains retargeting.old.new_chains) statement.now) }
    ensures counted { OnOk result (retargeting.new ≡ after_writing statement.now retargeting.old) }
    ensures unchanged { OnErr result (retargeting.new ≡ retargeting.old) }
{
    retargeting.write(alloc, statement)
}
