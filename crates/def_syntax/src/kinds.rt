//! The kinds of words that forms are made of.
ghost use Rattle.std.specs.Prelude.{◌≡◌, codes, ◌∷◌};
ghost use Rattle.def_tokens.specs.Numbers.{is_integer};
ghost use Rattle.token_forms.specs.Classes.{Only, But};
ghost use Rattle.def_syntax.specs.Words.{any, is_number, marks, placings, in_components, in_pins, in_nets, in_statement};

use crate::words::{is_mark, is_number, is_placing};
use def_tokens::is_integer;
use token_forms::{Pass, Word};

/// A token that isn't a mark.
pub(crate) struct Name {}

/// An optional sign and digits.
pub(crate) struct Integer {}

/// Digits.
pub(crate) struct Number {}

/// `PLACED`, `FIXED` or `COVER`.
pub(crate) struct Placing {}

/// The first word of an option of a component that is read.
pub(crate) struct InComponents {}

/// The first word of an option of a design pin that is read.
pub(crate) struct InPins {}

/// The first word of an option of a net that is read: there is none.
pub(crate) struct InNets {}

impl Word for Name {
    ghost kind = { But marks };

    ghost test = { any };

    #[inline(always)]
    fn is_in(text: &[u8]) -> bool {
        !is_mark(text)
    }

    #[inline(always)]
    fn passes(_text: &[u8]) -> bool {
        true
    }
}

impl Word for Integer {
    ghost kind = { But marks };

    ghost test = { is_integer };

    #[inline(always)]
    fn is_in(text: &[u8]) -> bool {
        !is_mark(text)
    }

    fn passes(text: &[u8]) -> bool {
        is_integer(text)
    }
}

impl Word for Number {
    ghost kind = { But marks };

    ghost test = { is_number };

    #[inline(always)]
    fn is_in(text: &[u8]) -> bool {
        !is_mark(text)
    }

    fn passes(text: &[u8]) -> bool {
        is_number(text)
    }
}

impl Word for Placing {
    ghost kind = { Only placings };

    ghost test = { any };

    fn is_in(text: &[u8]) -> bool {
        is_placing(text)
    }

    fn passes(_text: &[u8]) -> bool {
        true
    }
}

impl Word for InComponents {
    ghost kind = { Only in_components };

    ghost test = { any };

    fn is_in(text: &[u8]) -> bool {
        is_placing(text) || text == b"UNPLACED".as_slice()
    }

    fn passes(_text: &[u8]) -> bool {
        true
    }
}

impl Word for InPins {
    ghost kind = { Only in_pins };

    ghost test = { any };

    fn is_in(text: &[u8]) -> bool {
        is_placing(text) || text == b"NET".as_slice()
    }

    fn passes(_text: &[u8]) -> bool {
        true
    }
}

impl Word for InNets {
    ghost kind = { Only in_nets };

    ghost test = { any };

    fn is_in(_text: &[u8]) -> bool {
        false
    }

    fn passes(_text: &[u8]) -> bool {
        true
    }
}

/// The name of a net that isn't passed.
pub(crate) struct NetName {}

impl Word for NetName {
    ghost kind = { But (codes "MUSTJOIN" ∷ marks) };

    ghost test = { any };

    #[inline(always)]
    fn is_in(text: &[u8]) -> bool {
        !(text == b"MUSTJOIN".as_slice() || is_mark(text))
    }

    #[inline(always)]
    fn passes(_text: &[u8]) -> bool {
        true
    }
}

/// The name of a component, where `PIN` is none.
pub(crate) struct CellName {}

impl Word for CellName {
    ghost kind = { But (codes "PIN" ∷ marks) };

    ghost test = { any };

    #[inline(always)]
    fn is_in(text: &[u8]) -> bool {
        !(text == b"PIN".as_slice() || is_mark(text))
    }

    #[inline(always)]
    fn passes(_text: &[u8]) -> bool {
        true
    }
}

/// Anything but a semicolon.
pub(crate) struct InStatement {}

impl Pass for InStatement {
    ghost passing = { in_statement };

    fn depth_behind(depth: usize, text: &[u8]) -> Option<usize> {
        match text {
            [] => Some(depth + 1),
            [b';'] => None,
            _ if depth == 0 => Some(0),
            _ => None,
        }
    }
}
