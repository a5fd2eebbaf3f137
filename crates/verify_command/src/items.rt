//! The statements of patterns in which nothing is wrong, one after the other.
ghost use Rattle.std.specs.Prelude.{◌≡◌, None, IfOk, OnErr};
ghost use Rattle.stil_reader.specs.Cursors.{IsReadableItem, Takes};
ghost use Rattle.verify_command.specs.Steps.{Passes, TakesNext};

use base_types::{NoMemory, ReadFault};
use std::alloc::Global;
use stil_reader::{PatternCursor, PatternItem};
use stil_types::PatternStatement;

/// The next item.
fn next_item(alloc: Global, patterns: &mut PatternCursor) -> Result<Option<PatternItem>, NoMemory>
    requires sound { patterns.old.fault ≡ None }
    ensures value { IfOk result (λ item. Takes patterns.old item patterns.new) }
    ensures readable { IfOk result (IsReadableItem patterns.old.head) }
    ensures unchanged { OnErr result (patterns.new ≡ patterns.old) }
{
    match patterns.next(alloc) {
        Ok(item) => Ok(item),
        Err(ReadFault::NoMemory) => Err(NoMemory),
        Err(ReadFault::Fault(_fault)) => unreachable!(),
    }
}

/// Takes the next statement of patterns in which nothing is wrong; None where none is left. The names
/// of the Patterns that open before it are passed. Want of memory is the only refusal, behind which
/// all statements are left that were before, and some of these names may be passed.
pub fn next_statement(
    alloc: Global,
    patterns: &mut PatternCursor,
) -> Result<Option<PatternStatement>, NoMemory>
    requires sound { patterns.old.fault ≡ None }
    ensures value { IfOk result (λ statement. TakesNext patterns.old statement patterns.new) }
    ensures kept { OnErr result (Passes patterns.old patterns.new) }
{
    while let Some(item) = next_item(alloc, patterns)? {
        if let PatternItem::Stated(statement) = item {
            return Ok(Some(statement));
        }
    }
    Ok(None)
}
