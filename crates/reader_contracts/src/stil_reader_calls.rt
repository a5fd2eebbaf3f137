//! The contracts of `stil_reader`.
ghost use Rattle.base_types.specs.FirstFault.{IfFault, IsFirstFault};
ghost use Rattle.base_types.specs.declared.fault.Fault.{Fault as ghost_fault};
ghost use Rattle.std.specs.Prelude.{All, IfOk, OnErr, OnOk, length, ◌<◌, ◌^◌, ◌≡◌};
ghost use Rattle.stil_calls.specs.Statements.{AreAccepted, AreAcceptedBy};
ghost use Rattle.stil_head.specs.Heads.{DenotesHead};
ghost use Rattle.stil_reader.specs.Cursors.{IsAtFault, IsReadableItem, Takes};
ghost use Rattle.stil_reader.specs.Laws.{EndLaw, WholeLaw};
ghost use Rattle.stil_reader.specs.Patterns.{DenotesStil, HoldsBehind, HoldsInStil, IsJudged, MakesUp};
ghost use Rattle.stil_reader.specs.declared.stil.Judged.{Judged as ghost_judged};
ghost use Rattle.stil_reader.specs.declared.stil.Stil.{Stil as ghost_stil};
ghost use Rattle.stil_types.specs.Statements.{IsPlaced};

use base_types::ReadFault;
use std::alloc::Global;
use stil_calls::Judging;
use stil_reader::{Judged, PatternCursor, PatternItem, Stil};
use stil_types::StilHead;

/// As `stil_reader::read_stil`.
pub fn read_stil(alloc: Global, bytes: &[u8]) -> Result<Stil, ReadFault>
    requires size { length bytes.now < 2 ^ 32 }
    ensures value { IfOk result (DenotesStil bytes.now) }
    ensures only { IfOk result (λ stil. (other : ghost_stil) → DenotesStil bytes.now other → other ≡ stil) }
    ensures first { IfFault result (IsFirstFault (HoldsInStil bytes.now)) }
    ensures no_fault { OnOk result ((fault : ghost_fault) → HoldsInStil bytes.now fault → ⊥) }
    ensures formed { IfOk result (λ stil. All (AreAcceptedBy Judging.Form stil.head) stil.statements) }
    ensures placed { IfOk result (λ stil. All IsPlaced stil.statements) }
{
    stil_reader::read_stil(alloc, bytes)
}

/// As `stil_reader::read_judged`.
pub fn read_judged(alloc: Global, bytes: &[u8], head: &StilHead) -> Result<Judged, ReadFault>
    requires size { length bytes.now < 2 ^ 32 }
    requires denoted { DenotesHead bytes.now head.now }
    ensures value { IfOk result (IsJudged bytes.now head.now) }
    ensures only { IfOk result (λ judged. (other : ghost_judged) → IsJudged bytes.now head.now other → other ≡ judged) }
    // No byte is lost.
    ensures whole { IfOk result (MakesUp bytes.now head.now) }
    ensures first { IfFault result (IsFirstFault (HoldsBehind Judging.Lengths bytes.now head.now)) }
    ensures no_fault { OnOk result ((fault : ghost_fault) → HoldsBehind Judging.Lengths bytes.now head.now fault → ⊥) }
    ensures accepted { IfOk result (λ judged. All (AreAccepted head.now) judged.stil.statements) }
    ensures placed { IfOk result (λ judged. All IsPlaced judged.stil.statements) }
{
    stil_reader::read_judged(alloc, bytes, head)
}

/// As `stil_reader::PatternCursor::next`.
pub fn pattern_cursor_next<'a>(
    pattern_cursor: &mut PatternCursor<'a>,
    alloc: Global,
) -> Result<Option<PatternItem>, ReadFault>
    ensures value { IfOk result (λ item. Takes pattern_cursor.old item pattern_cursor.new) }
    ensures readable { IfOk result (IsReadableItem pattern_cursor.old.head) }
    ensures fault { IfFault result (IsAtFault pattern_cursor.old) }
    ensures unchanged { OnErr result (pattern_cursor.new ≡ pattern_cursor.old) }
{
    pattern_cursor.next(alloc)
}

/// As `stil_reader::whole_law`.
pub fn whole_law()
    ensures ends { EndLaw }
    ensures whole { WholeLaw }
{
    stil_reader::whole_law()
}
