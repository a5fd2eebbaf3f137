//! The pieces of the patterns, one after the other.
ghost use Rattle.std.specs.Prelude.{◌≡◌, ◌<◌, ◌^◌, [], length, IfOk};
ghost use Rattle.base_types.specs.FirstFault.{IfFault};
ghost use Rattle.base_types.specs.Faults.{at_line};
ghost use Rattle.base_types.specs.declared.fault.FileKind.TheVariants.{Stil as in_stil};
ghost use Rattle.base_types.specs.declared.fault.ReadFault.TheVariants.{Fault as refused};
ghost use Rattle.stil_parts.specs.Coming.{IsEarly};
ghost use Rattle.stil_calls.specs.Parts.{judge_by};
ghost use Rattle.stil_calls.specs.Statements.{IsFaultOf};
ghost use Rattle.stil_reader.specs.Sayings.{told_by};
ghost use Rattle.stil_reader.specs.Reading.{IsRead, IsNext};

use base_types::{Fault, FileKind, Name, ReadFault};
use std::alloc::Global;
use stil_calls::{Judging, judge_part, opened_name, read_statement_by};
use stil_parts::{Decision, Part, PartFault, Point, begin_at, decide, part_len};
use stil_types::{PatternStatement, StilHead};

/// A piece of the patterns.
#[derive(Drop)]
pub(crate) enum Piece {
    /// Bytes that belong to no statement; where a Pattern opens behind them, its plain name.
    Gap(Option<Name>),
    Statement(PatternStatement),
}

/// The piece at the front of some bytes, and the point behind it.
#[derive(Drop)]
pub(crate) struct Step {
    pub(crate) len: usize,
    pub(crate) piece: Piece,
    pub(crate) point: Point,
}

/// A fault of the text, as it is answered.
fn read_fault(fault: PartFault) -> ReadFault
    ensures value { result ≡ refused (at_line fault.kind in_stil fault.line) }
{
    ReadFault::Fault(Fault::at_line(fault.kind, FileKind::Stil, fault.line))
}

/// The piece that a part is, or what is wrong with it.
fn read_part(
    alloc: Global,
    judging: Judging,
    head: &StilHead,
    point: Point,
    part: Part,
    text: &[u8],
) -> Result<Piece, ReadFault>
    requires size { length text.now < 2 ^ 32 }
    requires early { IsEarly point }
    ensures value { IfOk result (IsRead judging head.now point part text.now) }
    ensures first { IfFault result (λ fault. IsFaultOf (judge_by judging head.now point part text.now) fault) }
{
    if let Part::Whole(_len) = part {
        let pattern = point.opened.saturating_sub(1) as u32;
        return match read_statement_by(alloc, judging, head, pattern, point.line, text) {
            Ok(statement) => Ok(Piece::Statement(statement)),
            Err(fault) => Err(fault),
        };
    }
    if let Some(fault) = judge_part(alloc, judging, head, point, part, text)? {
        return Err(read_fault(fault));
    }
    match part {
        Part::Opens(_len) => Ok(Piece::Gap(opened_name(alloc, text)?)),
        _ => Ok(Piece::Gap(None)),
    }
}

/// The next piece of the last bytes of a text, which stand at a point; None where there is none and nothing is wrong.
pub(crate) fn next(
    alloc: Global,
    judging: Judging,
    head: &StilHead,
    point: Point,
    rest: &[u8],
) -> Result<Option<Step>, ReadFault>
    requires size { length rest.now < 2 ^ 32 }
    requires early { IsEarly point }
    ensures value { IfOk result (IsNext judging head.now point rest.now) }
    ensures first { IfFault result (λ fault. IsFaultOf (told_by judging head.now point rest.now).fault fault) }
    ensures nothing { IfFault result (λ fault. (told_by judging head.now point rest.now).says ≡ []) }
{
    match decide(true, rest, point, 0, begin_at(point.place)) {
        Decision::Want(_scan) => unreachable!(),
        Decision::Gap(len, next) => Ok(Some(Step {
            len,
            piece: Piece::Gap(None),
            point: next,
        })),
        Decision::Part(part, next) => {
            let len = part_len(part);
            let piece = read_part(alloc, judging, head, point, part, &rest[..len])?;
            Ok(Some(Step {
                len,
                piece,
                point: next,
            }))
        }
        Decision::Stop(fault) => Err(read_fault(fault)),
        Decision::End => Ok(None),
    }
}
