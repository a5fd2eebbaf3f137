//! What is wrong with a statement.
ghost use Rattle.std.specs.Prelude.{◌≡◌, ◌-◌, ◌^◌, min, IfOk};
ghost use Rattle.stil_calls.specs.Scans.{shifts_in};
ghost use Rattle.stil_calls.specs.Faults.{size_kind, kind_of};
ghost use Rattle.stil_calls.specs.Given.{AreGiven};

use crate::judging::{Judging, by_lengths};
use crate::scan::{Given, given_to, is_foreign, is_long, is_short, is_vast, shifts_in};
use crate::twice::gives_twice;
use base_types::{Kind, NoMemory};
use std::alloc::Global;
use stil_syntax::{Item, Shape};
use stil_types::{ScanChainDecl, StilHead};

/// The least kind that holds of how much a scan call gives, and counts.
fn size_kind(
    judging: Judging,
    chains: &[ScanChainDecl],
    items: &[Item],
    given: &Given<'_>,
    shifts: u64,
) -> Option<Kind>
    requires given { AreGiven chains.now items.now given.now.loads.items given.now.compares.items }
    requires shifts { shifts ≡ min (shifts_in chains.now items.now) (2 ^ 64 - 1) }
    ensures value { result ≡ size_kind judging chains.now items.now }
{
    if by_lengths(judging) && is_short(chains, items, shifts) {
        return Some(Kind::ShortLoad);
    }
    if by_lengths(judging) && is_long(chains, items, given, shifts) {
        return Some(Kind::LongCompare);
    }
    if is_vast(chains, items, shifts) {
        return Some(Kind::TooManyShifts);
    }
    None
}

/// The least kind that holds of a scan call.
fn scan_kind(
    alloc: Global,
    judging: Judging,
    head: &StilHead,
    items: &[Item],
) -> Result<Option<Kind>, NoMemory>
    ensures value { IfOk result (λ kind. kind ≡ kind_of judging head.now (Shape.Scan items.now)) }
{
    let chains = head.chains.as_slice();
    if gives_twice(alloc, items)? {
        return Ok(Some(Kind::PatternSyntax));
    }
    let given = given_to(alloc, chains, items)?;
    let Some(shifts) = shifts_in(chains, items, &given) else {
        return Ok(Some(Kind::ScanCharacter));
    };
    if is_foreign(chains, items) {
        return Ok(Some(Kind::ForeignData));
    }
    Ok(size_kind(judging, chains, items, &given, shifts))
}

/// The least kind that holds of a statement and counts.
pub(crate) fn kind_of(
    alloc: Global,
    judging: Judging,
    head: &StilHead,
    shape: &Shape<'_, '_>,
) -> Result<Option<Kind>, NoMemory>
    ensures value { IfOk result (λ kind. kind ≡ kind_of judging head.now shape.now) }
{
    match shape {
        Shape::NoForm => Ok(Some(Kind::PatternSyntax)),
        Shape::Unsupported => Ok(Some(Kind::PatternUnsupported)),
        Shape::Other => Ok(None),
        Shape::Scan(items) => scan_kind(alloc, judging, head, items.as_slice()),
        Shape::Loop(_times, _body) => Ok(None),
    }
}
