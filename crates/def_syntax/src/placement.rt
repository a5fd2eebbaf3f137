//! Where a component or a design pin is placed.
ghost use Rattle.std.specs.Prelude.{◌≡◌, ◌<◌, length, OnOk};
ghost use Rattle.token_forms.specs.Parsing.{Gives};
ghost use Rattle.def_syntax.specs.Placements.{orient_of, turned, placement};

use crate::kinds::{Integer, Name, Placing};
use base_types::Stop;
use def_tokens::Orient;
use token_forms::{Parser, Read, TokenText};

/// `PLACED ( x y ) orient`; `FIXED` and `COVER` too. The coordinates are integers of any size, in database units, as they
/// are written.
#[derive(Drop)]
pub struct Placement<'a> {
    pub x: TokenText<'a>,
    pub y: TokenText<'a>,
    pub orient: Orient,
}

/// What an orientation's word makes.
#[tactic(auto, unfolding(crate::specs::Placements::orient_of))]
fn orient_of(word: &[u8]) -> Option<Orient>
    ensures value { result ≡ orient_of word.now }
{
    match word {
        [b'N'] => Some(Orient::N),
        [b'W'] => Some(Orient::W),
        [b'S'] => Some(Orient::S),
        [b'E'] => Some(Orient::E),
        [b'F', b'N'] => Some(Orient::FN),
        [b'F', b'W'] => Some(Orient::FW),
        [b'F', b'S'] => Some(Orient::FS),
        [b'F', b'E'] => Some(Orient::FE),
        _ => None,
    }
}

#[tactic(auto, unfolding(crate::specs::Placements::turned))]
fn turned(parser: &mut Parser<'_, '_>) -> Result<Orient, Stop>
    ensures value { Gives result parser.new.tokens (turned.reads parser.old.tokens) }
    ensures shorter { OnOk result (length parser.new.tokens < length parser.old.tokens) }
{
    let word = parser.text::<Name>()?;
    orient_of(word.text()).ok_or(Stop::NoForm)
}

impl<'a> Read<'a> for Placement<'a> {
    ghost form = { placement };

    #[tactic(auto, unfolding(crate::specs::Placements::placement))]
    fn begins(parser: &Parser<'a, '_>) -> bool {
        parser.begins_text::<Placing>()
    }

    #[tactic(auto, unfolding(crate::specs::Placements::placement))]
    fn read(parser: &mut Parser<'a, '_>) -> Result<Placement<'a>, Stop> {
        parser.text::<Placing>()?;
        parser.word(b"(")?;
        let x = parser.text::<Integer>()?;
        let y = parser.text::<Integer>()?;
        parser.word(b")")?;
        let orient = turned(parser)?;
        Ok(Placement { x, y, orient })
    }
}
