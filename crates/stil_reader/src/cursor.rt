//! The patterns of a text, taken one item after the other, without a list of them.
ghost use Rattle.std.specs.Prelude.{◌≡◌, ◌<◌, ◌^◌, length, IfOk, OnErr};
ghost use Rattle.base_types.specs.FirstFault.{IfFault};
ghost use Rattle.stil_parts.specs.Coming.{IsEarly};
ghost use Rattle.stil_head.specs.Heads.{DenotesHead};
ghost use Rattle.stil_reader.specs.Cursors.{ahead_from, ahead_of, IsAtFault, IsFirst, IsReadableItem, Takes, item_of};

use crate::read::behind_head;
use crate::step::{Piece, next};
use base_types::{Name, ReadFault};
use std::alloc::Global;
use std::marker::Model;
use stil_calls::Judging;
use stil_parts::Point;
use stil_types::{PatternStatement, StilHead};

/// What the patterns of a text say next.
#[derive(Drop)]
pub enum PatternItem {
    /// A Pattern of this plain name opens.
    Named(Name),
    /// A statement of a Pattern.
    Stated(PatternStatement),
}

/// An item, and where the text goes on behind it.
#[derive(Drop)]
struct Taken<'a> {
    item: PatternItem,
    point: Point,
    rest: &'a [u8],
}

/// The item that a piece is; None where it is bytes alone.
fn item_of(piece: Piece) -> Option<PatternItem>
    ensures value { result ≡ item_of piece }
{
    match piece {
        Piece::Gap(None) => None,
        Piece::Gap(Some(name)) => Some(PatternItem::Named(name)),
        Piece::Statement(statement) => Some(PatternItem::Stated(statement)),
    }
}

/// The first item of the bytes at a point; None where there is none and nothing is wrong.
fn take_item<'a>(
    alloc: Global,
    head: &StilHead,
    point: Point,
    rest: &'a [u8],
) -> Result<Option<Taken<'a>>, ReadFault>
    requires size { length rest.now < 2 ^ 32 }
    requires early { IsEarly point }
    ensures value { IfOk result (IsFirst head.now (ahead_from head.now point rest.now)) }
    ensures fault { IfFault result (IsAtFault (ahead_from head.now point rest.now)) }
{
    let mut at = point;
    let mut left = rest;
    while let Some(step) = next(alloc, Judging::Lengths, head, at, left)? {
        let (_text, behind) = left.split_at(step.len);
        if let Some(item) = item_of(step.piece) {
            return Ok(Some(Taken {
                item,
                point: step.point,
                rest: behind,
            }));
        }
        at = step.point;
        left = behind;
    }
    Ok(None)
}

/// The patterns behind the head of a STIL text, of which one item is held at a time (IEEE 1450-1999, Pattern). Contracts see the head,
/// the names and the statements that are left, and the fault behind them; all kinds of faults count.
#[derive(Drop)]
pub struct PatternCursor<'a> {
    head: &'a StilHead,
    point: Point,
    rest: &'a [u8],
}

impl<'a> Model for PatternCursor<'a> {
    ghost use Rattle.std.specs.Prelude.{◌<◌, ◌^◌, length};
    ghost use Rattle.stil_parts.specs.Coming.{IsEarly};
    ghost use Rattle.stil_reader.specs.Cursors.{Ahead, ahead_from};

    ghost Value = { Ahead };

    ghost view = { λ c. ahead_from c.head.now c.point c.rest.now };

    ghost invariant = { λ c. IsEarly c.point × (length c.rest.now < 2 ^ 32) };
}

impl<'a> PatternCursor<'a> {
    /// All patterns of a text of less than 4 GiB, behind its head, which is the one that `read_head` answers. Takes no memory.
    pub fn behind_head(bytes: &'a [u8], head: &'a StilHead) -> PatternCursor<'a>
        requires size { length bytes.now < 2 ^ 32 }
        requires denoted { DenotesHead bytes.now head.now }
        ensures value { result ≡ ahead_of head.now bytes.now }
    {
        let (_front, rest) = bytes.split_at(head.end as usize);
        PatternCursor {
            head,
            point: behind_head(bytes, head.end),
            rest,
        }
    }

    /// Takes the next item; None where none is left and nothing is wrong. The bytes between the statements are passed without a
    /// copy.
    ///
    /// Refused where no item is left by the fault behind the last one: PatternSyntax, PatternUnsupported, ScanCharacter,
    /// ForeignData, ShortLoad, LongCompare, TooManyShifts or StatementSize; or by want of memory.
    pub fn next(&mut self, alloc: Global) -> Result<Option<PatternItem>, ReadFault>
        ensures value { IfOk result (λ item. Takes self.old item self.new) }
        ensures readable { IfOk result (IsReadableItem self.old.head) }
        ensures fault { IfFault result (IsAtFault self.old) }
        ensures unchanged { OnErr result (self.new ≡ self.old) }
    {
        let Some(taken) = take_item(alloc, self.head, self.point, self.rest)? else {
            return Ok(None);
        };
        self.point = taken.point;
        self.rest = taken.rest;
        Ok(Some(taken.item))
    }

    /// How many bytes stand behind the item that was taken last, up to the end of the text.
    pub fn left(&self) -> usize {
        self.rest.len()
    }
}
