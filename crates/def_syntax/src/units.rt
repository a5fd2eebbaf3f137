//! The statement of the database units.
ghost use Rattle.std.specs.Prelude.{◌≡◌};
ghost use Rattle.token_forms.specs.Laws.{IsStatement};
ghost use Rattle.def_syntax.specs.Grammar.{units};

use crate::kinds::Integer;
use base_types::Stop;
use token_forms::{Parser, Read, Statement, TokenText};

/// `UNITS DISTANCE MICRONS n ;`: the database units of a micron, an integer of any size as it is written.
#[derive(Drop)]
pub struct Units<'a> {
    pub number: TokenText<'a>,
}

impl<'a> Read<'a> for Units<'a> {
    ghost form = { units };

    #[tactic(auto, unfolding(crate::specs::Grammar::units))]
    fn begins(parser: &Parser<'a, '_>) -> bool {
        parser.begins_word(b"UNITS")
    }

    #[tactic(auto, unfolding(crate::specs::Grammar::units))]
    fn read(parser: &mut Parser<'a, '_>) -> Result<Units<'a>, Stop> {
        parser.word(b"UNITS")?;
        parser.word(b"DISTANCE")?;
        parser.word(b"MICRONS")?;
        let number = parser.text::<Integer>()?;
        parser.word(b";")?;
        Ok(Units { number })
    }
}

impl<'a> Statement<'a> for Units<'a> {
    #[tactic(auto, using(crate::proofs::Lawful::units_statement))]
    fn is_statement()
        ensures law { IsStatement units }
    {}
}
