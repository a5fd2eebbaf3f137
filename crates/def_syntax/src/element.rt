//! The elements of a scan chain.
ghost use Rattle.std.specs.Prelude.{◌≡◌, ◌<◌, length, OnOk};
ghost use Rattle.token_forms.specs.Parsing.{Gives};
ghost use Rattle.def_syntax.specs.Grammar.{bracket, element, elements, element_list};
ghost use Rattle.def_syntax.specs.Pieces.{put_bracket};

use crate::kinds::{Name, Number};
use base_types::{Rows, Stop};
use token_forms::{Gather, Parser, Read, TokenText};

/// `( IN pin )`, `( OUT pin )` or `( BITS n )`.
#[derive(Drop)]
pub(crate) enum Bracket<'a> {
    In(TokenText<'a>),
    Out(TokenText<'a>),
    Bits(TokenText<'a>),
}

/// `component ( IN pin ) ( OUT pin ) ( BITS n )`, each bracket at most once, in any order. The number of bits is digits of any
/// value, as it is written.
#[derive(Drop)]
pub struct Element<'a> {
    pub name: TokenText<'a>,
    pub input: Option<TokenText<'a>>,
    pub output: Option<TokenText<'a>>,
    pub bits: Option<TokenText<'a>>,
}

/// `FLOATING element ..` or `ORDERED element ..`
#[derive(Drop)]
pub enum ElementList<'a> {
    Floating(Rows<Element<'a>>),
    Ordered(Rows<Element<'a>>),
}

impl<'a> Read<'a> for Bracket<'a> {
    ghost form = { bracket };

    #[tactic(auto, unfolding(crate::specs::Grammar::bracket))]
    fn begins(parser: &Parser<'a, '_>) -> bool {
        parser.begins_word(b"(")
    }

    #[tactic(auto, unfolding(crate::specs::Grammar::bracket))]
    fn read(parser: &mut Parser<'a, '_>) -> Result<Bracket<'a>, Stop> {
        parser.word(b"(")?;
        if parser.begins_word(b"IN") {
            parser.word(b"IN")?;
            let pin = parser.text::<Name>()?;
            parser.word(b")")?;
            return Ok(Bracket::In(pin));
        }
        if parser.begins_word(b"OUT") {
            parser.word(b"OUT")?;
            let pin = parser.text::<Name>()?;
            parser.word(b")")?;
            return Ok(Bracket::Out(pin));
        }
        parser.word(b"BITS")?;
        let count = parser.text::<Number>()?;
        parser.word(b")")?;
        Ok(Bracket::Bits(count))
    }
}

impl<'a> Gather<Bracket<'a>> for Element<'a> {
    ghost put = { put_bracket };

    fn add(mut self, piece: Bracket<'a>) -> Result<Element<'a>, Stop> {
        match piece {
            Bracket::In(pin) if self.input.is_none() => self.input = Some(pin),
            Bracket::Out(pin) if self.output.is_none() => self.output = Some(pin),
            Bracket::Bits(count) if self.bits.is_none() => self.bits = Some(count),
            _ => return Err(Stop::NoForm),
        }
        Ok(self)
    }
}

impl<'a> Read<'a> for Element<'a> {
    ghost form = { element };

    #[tactic(auto, unfolding(crate::specs::Grammar::element))]
    fn begins(parser: &Parser<'a, '_>) -> bool {
        parser.begins_text::<Name>()
    }

    #[tactic(auto, unfolding(crate::specs::Grammar::element))]
    fn read(parser: &mut Parser<'a, '_>) -> Result<Element<'a>, Stop> {
        let name = parser.text::<Name>()?;
        parser.gather(Element {
            name,
            input: None,
            output: None,
            bits: None,
        })
    }
}

#[tactic(auto, unfolding(crate::specs::Grammar::elements))]
fn elements<'a>(parser: &mut Parser<'a, '_>) -> Result<Rows<Element<'a>>, Stop>
    ensures value { Gives result parser.new.tokens (elements.reads parser.old.tokens) }
    ensures shorter { OnOk result (length parser.new.tokens < length parser.old.tokens) }
{
    parser.some()
}

#[tactic(auto, unfolding(crate::specs::Grammar::element_list))]
pub(crate) fn element_list<'a>(parser: &mut Parser<'a, '_>) -> Result<ElementList<'a>, Stop>
    ensures value { Gives result parser.new.tokens (element_list.reads parser.old.tokens) }
    ensures shorter { OnOk result (length parser.new.tokens < length parser.old.tokens) }
{
    if parser.begins_word(b"FLOATING") {
        parser.word(b"FLOATING")?;
        return Ok(ElementList::Floating(elements(parser)?));
    }
    parser.word(b"ORDERED")?;
    Ok(ElementList::Ordered(elements(parser)?))
}
