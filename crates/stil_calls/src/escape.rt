//! Escapes in the data of a scan call, byte by byte.
ghost use Rattle.std.specs.Prelude.{◌≡◌};
ghost use Rattle.stil_calls.specs.Repeats.{behind, completed, is_outside, is_character};

use crate::repeats::{Escape, Repeat, Side};
use stil_syntax::{counted, is_digit};

fn repeat(times: u64, character: u8) -> Option<Repeat>
    ensures { result ≡ Some (record { times = times; character = character }) }
{
    Some(Repeat { times, character })
}

/// Where a byte leads.
#[inline(always)]
pub(crate) fn behind(escape: Escape, b: u8) -> Escape
    ensures value { result ≡ behind escape b }
{
    match escape {
        Escape::Outside => {
            if b == b'\\' {
                Escape::Slash
            } else {
                Escape::Outside
            }
        }
        Escape::Slash => {
            if b == b'r' {
                Escape::Count(0)
            } else {
                Escape::Broken
            }
        }
        Escape::Count(number) => behind_count(number, b),
        Escape::Waits(number) => {
            if b == b' ' {
                Escape::Waits(number)
            } else {
                Escape::Outside
            }
        }
        Escape::Broken => Escape::Broken,
    }
}

fn behind_count(number: u64, b: u8) -> Escape
    ensures value { result ≡ behind (Escape.Count number) b }
{
    if is_digit(b) {
        return Escape::Count(counted(number, b));
    }
    if number == 0 {
        return Escape::Broken;
    }
    if b == b' ' {
        Escape::Waits(number)
    } else {
        Escape::Outside
    }
}

/// What a byte completes.
#[inline(always)]
pub(crate) fn completed(escape: Escape, b: u8) -> Option<Repeat>
    ensures value { result ≡ completed escape b }
{
    match escape {
        Escape::Outside => {
            if b == b' ' || b == b'\\' {
                None
            } else {
                repeat(1, b)
            }
        }
        Escape::Slash => None,
        Escape::Count(number) => {
            if is_digit(b) || (number == 0 || b == b' ') {
                None
            } else {
                repeat(number, b)
            }
        }
        Escape::Waits(number) => { if b == b' ' { None } else { repeat(number, b) } }
        Escape::Broken => None,
    }
}

pub(crate) fn is_outside(escape: Escape) -> bool
    ensures value { result ≡ is_outside escape }
{
    match escape {
        Escape::Outside => true,
        Escape::Slash => false,
        Escape::Count(_number) => false,
        Escape::Waits(_number) => false,
        Escape::Broken => false,
    }
}

/// Whether the byte is of the alphabet of a side.
#[inline(always)]
pub(crate) fn is_character(side: Side, b: u8) -> bool
    ensures value { result ≡ is_character side b }
{
    match side {
        Side::Load => b == b'0' || b == b'1' || b == b'N',
        Side::Compare => b == b'L' || b == b'H' || b == b'X',
    }
}
