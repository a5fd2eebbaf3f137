//! A STIL text, taken whole.
ghost use Rattle.std.specs.Prelude.{◌≡◌, ◌<◌, ◌≤◌, ◌^◌, length, take, All, IfOk, OnOk};
ghost use Rattle.base_types.specs.declared.fault.Fault.{Fault as ghost_fault};
ghost use Rattle.base_types.specs.FirstFault.{IfFault, IsFirstFault};
ghost use Rattle.stil_parts.specs.Coming.{IsEarly, moved};
ghost use Rattle.stil_parts.specs.declared.gap.Place.TheVariants.{Top as at_top};
ghost use Rattle.stil_parts.specs.declared.gap.Comment.TheVariants.{Outside as not_in_one};
ghost use Rattle.stil_types.specs.Statements.{IsPlaced};
ghost use Rattle.stil_calls.specs.Statements.{AreAccepted, AreAcceptedBy};
ghost use Rattle.stil_head.specs.Heads.{DenotesHead};
ghost use Rattle.stil_reader.specs.declared.stil.Stil.{Stil as ghost_stil};
ghost use Rattle.stil_reader.specs.declared.stil.Judged.{Judged as ghost_judged};
ghost use Rattle.stil_reader.specs.Sayings.{beginning};
ghost use Rattle.stil_reader.specs.Patterns.{DenotesStil, IsJudged, MakesUp, HoldsBehind, HoldsInStil};
ghost use Rattle.stil_reader.specs.Reading.{IsReadBy};

use crate::reading::Reading;
use crate::step::next;
use crate::stil::{Judged, Stil};
use base_types::{NoMemory, ReadFault, line_of};
use std::alloc::Global;
use stil_calls::Judging;
use stil_head::read_head;
use stil_parts::{Comment, Place, Point};
use stil_types::StilHead;

/// The point behind a head that ends at this place.
pub(crate) fn behind_head(bytes: &[u8], end: u32) -> Point
    requires within { end ≤ length bytes.now }
    ensures value { result ≡ moved beginning (take end bytes.now) at_top not_in_one }
    ensures early { IsEarly result }
{
    Point {
        given: u64::from(end),
        line: line_of(bytes, end as usize),
        opened: 0,
        place: Place::Top,
        comment: Comment::Outside,
    }
}

/// The head and the patterns behind it, or the first fault there that counts.
fn read_patterns(
    alloc: Global,
    judging: Judging,
    bytes: &[u8],
    head: StilHead,
) -> Result<Judged, ReadFault>
    requires size { length bytes.now < 2 ^ 32 }
    requires within { head.end ≤ length bytes.now }
    ensures value { IfOk result (IsReadBy judging bytes.now head) }
    ensures first { IfFault result (HoldsBehind judging bytes.now head) }
{
    let mut reading = Reading::at(alloc, behind_head(bytes, head.end));
    let (_front, mut rest) = bytes.split_at(head.end as usize);
    while let Some(step) = next(alloc, judging, &head, reading.point(), rest)? {
        let (text, behind) = rest.split_at(step.len);
        reading.add(alloc, text, step.piece, step.point)?;
        rest = behind;
    }
    Ok(reading.finish(head)?)
}

/// What a STIL text denotes beside its head, which is the one that `read_head` answers, and the bytes between the
/// statements; or its first fault behind the head, which is that of the earliest statement: PatternSyntax,
/// PatternUnsupported, ScanCharacter, ForeignData, ShortLoad, LongCompare, TooManyShifts or StatementSize; or want of
/// memory.
pub fn read_judged(alloc: Global, bytes: &[u8], head: &StilHead) -> Result<Judged, ReadFault>
    requires size { length bytes.now < 2 ^ 32 }
    requires denoted { DenotesHead bytes.now head.now }
    ensures value { IfOk result (IsJudged bytes.now head.now) }
    ensures only { IfOk result (λ judged. (other : ghost_judged) → IsJudged bytes.now head.now other → other ≡ judged) }
    // No byte is lost.
    ensures whole { IfOk result (MakesUp bytes.now head.now) }
    ensures first { IfFault result (IsFirstFault (HoldsBehind Judging.Lengths bytes.now head.now)) }
    ensures no_fault { OnOk result ((fault : ghost_fault) → HoldsBehind Judging.Lengths bytes.now head.now fault → ⊥) }
    ensures accepted { IfOk result (λ judged. All (AreAccepted head.now) judged.stil.statements) }
    ensures placed { IfOk result (λ judged. All IsPlaced judged.stil.statements) }
{
    match read_head(alloc, bytes) {
        Ok(own) => read_patterns(alloc, Judging::Lengths, bytes, own),
        Err(ReadFault::NoMemory) => Err(ReadFault::NoMemory),
        Err(ReadFault::Fault(_fault)) => unreachable!(),
    }
}

/// What a STIL text denotes, or its first fault: one of its head (StilSyntax, StilTwice, Unsupported), and then that of
/// the earliest statement behind it (PatternSyntax, PatternUnsupported, ScanCharacter, ForeignData, TooManyShifts or
/// StatementSize); or want of memory. Loads may be short and compares long.
pub fn read_stil(alloc: Global, bytes: &[u8]) -> Result<Stil, ReadFault>
    requires size { length bytes.now < 2 ^ 32 }
    ensures value { IfOk result (DenotesStil bytes.now) }
    ensures only { IfOk result (λ stil. (other : ghost_stil) → DenotesStil bytes.now other → other ≡ stil) }
    ensures first { IfFault result (IsFirstFault (HoldsInStil bytes.now)) }
    ensures no_fault { OnOk result ((fault : ghost_fault) → HoldsInStil bytes.now fault → ⊥) }
    ensures formed { IfOk result (λ stil. All (AreAcceptedBy Judging.Form stil.head) stil.statements) }
    ensures placed { IfOk result (λ stil. All IsPlaced stil.statements) }
{
    let head = read_head(alloc, bytes)?;
    Ok(read_patterns(alloc, Judging::Form, bytes, head)?.stil)
}
