//! The statements of PINS.
ghost use Rattle.std.specs.Prelude.{◌≡◌, ◌<◌, false, length, Option, Some, None, OnOk};
ghost use Rattle.token_forms.specs.Parsing.{Gives, GivesAll};
ghost use Rattle.token_forms.specs.Forms.{made, at};
ghost use Rattle.token_forms.specs.Laws.{IsStatement};
ghost use Rattle.def_syntax.specs.Words.{name};
ghost use Rattle.def_syntax.specs.OptionForms.{pin_option};
ghost use Rattle.def_syntax.specs.Grammar.{design_pin};
ghost use Rattle.def_syntax.specs.Pieces.{put_pin, pin_of};

use crate::kinds::{InPins, Name};
use crate::options::unread;
use crate::placement::Placement;
use base_types::{Span, Stop};
use token_forms::{Gather, Parser, Read, Statement, TokenText};

/// `- name option .. ;`: a design pin, the net that its option `NET` names, with the place of that word, and the first placement
/// among its options.
#[derive(Drop)]
pub struct DesignPin<'a> {
    pub name: TokenText<'a>,
    pub net: TokenText<'a>,
    pub net_span: Span,
    pub place: Option<Placement<'a>>,
}

/// The word of a net, and where it stands.
#[derive(Drop)]
pub(crate) struct NetWord<'a> {
    text: TokenText<'a>,
    span: Span,
}

/// An option of a design pin.
#[derive(Drop)]
pub(crate) enum PinOption<'a> {
    Net(NetWord<'a>),
    Placed(Placement<'a>),
    /// One that isn't read.
    Other,
}

/// A design pin as far as its options are read.
#[derive(Drop)]
pub(crate) struct SoFar<'a> {
    name: TokenText<'a>,
    net: Option<NetWord<'a>>,
    place: Option<Placement<'a>>,
}

fn net_word<'a>(parser: &mut Parser<'a, '_>) -> Result<NetWord<'a>, Stop>
    ensures value { Gives result parser.new.tokens ((made (λ p. record { text = p.0; span = p.1 }) (at name)).reads parser.old.tokens) }
    ensures shorter { OnOk result (length parser.new.tokens < length parser.old.tokens) }
{
    let before = parser.tokens.again();
    let text = parser.text::<Name>()?;
    let span = before.place_before(parser.tokens.len());
    Ok(NetWord { text, span })
}

impl<'a> Read<'a> for PinOption<'a> {
    ghost form = { pin_option false };

    #[tactic(auto, unfolding(crate::specs::OptionForms::pin_option))]
    fn begins(parser: &Parser<'a, '_>) -> bool {
        parser.begins_word(b"+")
    }

    #[tactic(auto, unfolding(crate::specs::OptionForms::pin_option))]
    fn read(parser: &mut Parser<'a, '_>) -> Result<PinOption<'a>, Stop> {
        parser.word(b"+")?;
        if Placement::begins(parser) {
            return Ok(PinOption::Placed(Placement::read(parser)?));
        }
        if parser.begins_word(b"NET") {
            parser.word(b"NET")?;
            return Ok(PinOption::Net(net_word(parser)?));
        }
        unread::<InPins>(parser)?;
        Ok(PinOption::Other)
    }
}

impl<'a> Gather<PinOption<'a>> for SoFar<'a> {
    ghost put = { put_pin };

    fn add(mut self, piece: PinOption<'a>) -> Result<SoFar<'a>, Stop> {
        match piece {
            PinOption::Net(net) if self.net.is_none() => self.net = Some(net),
            PinOption::Net(_) => return Err(Stop::NoForm),
            PinOption::Placed(place) if self.place.is_none() => self.place = Some(place),
            _ => {}
        }
        Ok(self)
    }
}

/// A design pin whose options are read, where one of them is its net.
fn pin_of(read: SoFar<'_>) -> Result<DesignPin<'_>, Stop>
    ensures value { GivesAll result (pin_of read.entry) }
{
    let net = read.net.ok_or(Stop::NoForm)?;
    Ok(DesignPin {
        name: read.name,
        net: net.text,
        net_span: net.span,
        place: read.place,
    })
}

impl<'a> Read<'a> for DesignPin<'a> {
    ghost form = { design_pin };

    #[tactic(auto, unfolding(crate::specs::Grammar::design_pin, crate::specs::OptionForms::design_pin_form))]
    fn begins(parser: &Parser<'a, '_>) -> bool {
        parser.begins_word(b"-")
    }

    #[tactic(auto, unfolding(crate::specs::Grammar::design_pin, crate::specs::OptionForms::design_pin_form))]
    fn read(parser: &mut Parser<'a, '_>) -> Result<DesignPin<'a>, Stop> {
        parser.word(b"-")?;
        let name = parser.text::<Name>()?;
        let read = parser.gather(SoFar {
            name,
            net: None,
            place: None,
        })?;
        parser.word(b";")?;
        pin_of(read)
    }
}

impl<'a> Statement<'a> for DesignPin<'a> {
    #[tactic(auto, using(crate::proofs::Lawful::pin_statement))]
    fn is_statement()
        ensures law { IsStatement design_pin }
    {}
}
