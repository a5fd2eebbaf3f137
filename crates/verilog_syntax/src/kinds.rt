//! The kinds of words that forms are made of.
ghost use Rattle.std.specs.Prelude.{◌≡◌};
ghost use Rattle.token_forms.specs.Classes.{Only, But};
ghost use Rattle.verilog_syntax.specs.Words.{kinds, no_operands, marks, any, is_name, is_decimal, is_operand};

use crate::words::{is_decimal, is_kind, is_mark, is_name, is_no_operand, is_operand};
use token_forms::Word;

/// A name.
pub(crate) struct Name {}

/// An unsigned decimal.
pub(crate) struct Decimal {}

/// A name or a constant.
pub(crate) struct OperandWord {}

/// A word that begins a declaration.
pub(crate) struct KindWord {}

impl Word for Name {
    ghost kind = { But no_operands };

    ghost test = { is_name };

    #[inline(always)]
    fn is_in(text: &[u8]) -> bool {
        !is_no_operand(text)
    }

    #[inline(always)]
    fn passes(text: &[u8]) -> bool {
        is_name(text)
    }

    #[inline(always)]
    #[tactic(auto, using(crate::proofs::WordKinds::name_accepted))]
    fn accepts(text: &[u8]) -> bool {
        is_name(text)
    }
}

impl Word for Decimal {
    ghost kind = { But marks };

    ghost test = { is_decimal };

    #[inline(always)]
    fn is_in(text: &[u8]) -> bool {
        !is_mark(text)
    }

    #[inline(always)]
    fn passes(text: &[u8]) -> bool {
        is_decimal(text)
    }

    #[inline(always)]
    #[tactic(auto, using(crate::proofs::WordKinds::decimal_accepted))]
    fn accepts(text: &[u8]) -> bool {
        is_decimal(text)
    }
}

impl Word for OperandWord {
    ghost kind = { But no_operands };

    ghost test = { is_operand };

    #[inline(always)]
    fn is_in(text: &[u8]) -> bool {
        !is_no_operand(text)
    }

    #[inline(always)]
    fn passes(text: &[u8]) -> bool {
        is_operand(text)
    }

    #[inline(always)]
    #[tactic(auto, using(crate::proofs::WordKinds::operand_accepted))]
    fn accepts(text: &[u8]) -> bool {
        is_operand(text)
    }
}

impl Word for KindWord {
    ghost kind = { Only kinds };

    ghost test = { any };

    fn is_in(text: &[u8]) -> bool {
        is_kind(text)
    }

    fn passes(_text: &[u8]) -> bool {
        true
    }
}
