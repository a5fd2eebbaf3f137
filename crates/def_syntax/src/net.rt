//! The statements of NETS.
ghost use Rattle.std.specs.Prelude.{◌≡◌, ◌<◌, ◌≤◌, length, OnOk};
ghost use Rattle.token_forms.specs.Parsing.{Gives};
ghost use Rattle.token_forms.specs.Forms.{made, maybe, passed, ◌▸◌};
ghost use Rattle.token_forms.specs.Runs.{bytes_of};
ghost use Rattle.token_forms.specs.Laws.{IsStatement};
ghost use Rattle.def_syntax.specs.Words.{name_place, in_statement};
ghost use Rattle.def_syntax.specs.Grammar.{synthesized, connection, net_body, net};

use crate::kinds::{InStatement, Name, NetName};
use base_types::{Rows, Span, Stop};
use token_forms::{Parser, Read, Statement, TokenText};

/// `( component pin )`: the places of its two words, and where its bracket opens. The component is `PIN` for a design pin and `*`
/// for the pins of this name of all components. `+ SYNTHESIZED` may stand behind the pin.
#[derive(Drop)]
pub struct Connection {
    pub component: Span,
    pub pin: Span,
    pub start: u32,
    pub synthesized: bool,
}

impl Connection {
    /// The component's word, in the text that the connection is read from. Takes no memory.
    pub fn component_in<'a>(&self, text: &'a [u8]) -> &'a [u8]
        ensures value { result.now ≡ bytes_of text.now self.now.component }
    {
        bytes_at(text, self.component)
    }

    /// The pin's word, in the text that the connection is read from. Takes no memory.
    pub fn pin_in<'a>(&self, text: &'a [u8]) -> &'a [u8]
        ensures value { result.now ≡ bytes_of text.now self.now.pin }
    {
        bytes_at(text, self.pin)
    }
}

/// The bytes of a text at a place, as far as it lies in the text.
fn bytes_at(text: &[u8], place: Span) -> &[u8]
    ensures value { result.now ≡ bytes_of text.now place }
{
    let start = text.len().min(place.start as usize);
    let rest = &text[start..];
    let len = rest
        .len()
        .min(place.end.saturating_sub(place.start) as usize);
    &rest[..len]
}

/// `- name connection .. option .. ;`, whose options aren't read.
#[derive(Drop)]
pub struct Net<'a> {
    pub name: TokenText<'a>,
    pub connections: Rows<Connection>,
}

/// A statement of NETS.
#[derive(Drop)]
pub enum NetStatement<'a> {
    Net(Net<'a>),
    /// `- MUSTJOIN .. ;`, which isn't read.
    MustJoin,
}

fn name_place(parser: &mut Parser<'_, '_>) -> Result<Span, Stop>
    ensures value { Gives result parser.new.tokens (name_place.reads parser.old.tokens) }
    ensures shorter { OnOk result (length parser.new.tokens < length parser.old.tokens) }
{
    let before = parser.tokens.again();
    parser.text::<Name>()?;
    Ok(before.place_before(parser.tokens.len()))
}

#[tactic(auto, unfolding(crate::specs::Grammar::synthesized))]
fn synthesized(parser: &mut Parser<'_, '_>) -> Result<bool, Stop>
    ensures value { Gives result parser.new.tokens (synthesized.reads parser.old.tokens) }
    ensures shorter { OnOk result (length parser.new.tokens ≤ length parser.old.tokens) }
{
    if !parser.begins_word(b"+") {
        return Ok(false);
    }
    parser.word(b"+")?;
    parser.word(b"SYNTHESIZED")?;
    Ok(true)
}

impl<'a> Read<'a> for Connection {
    ghost form = { connection };

    #[tactic(auto, unfolding(crate::specs::Grammar::connection))]
    fn begins(parser: &Parser<'a, '_>) -> bool {
        parser.begins_word(b"(")
    }

    #[tactic(auto, unfolding(crate::specs::Grammar::connection))]
    fn read(parser: &mut Parser<'a, '_>) -> Result<Connection, Stop> {
        let before = parser.tokens.again();
        parser.word(b"(")?;
        let component = name_place(parser)?;
        let pin = name_place(parser)?;
        let synthesized = synthesized(parser)?;
        parser.word(b")")?;
        let place = before.place_before(parser.tokens.len());
        Ok(Connection {
            component,
            pin,
            start: place.start,
            synthesized,
        })
    }
}

/// Takes options, which aren't read.
fn any_options(parser: &mut Parser<'_, '_>) -> Result<(), Stop>
    ensures value { Gives result parser.new.tokens ((made (λ any. tt) (maybe ("+" ▸ passed in_statement))).reads parser.old.tokens) }
    ensures shorter { OnOk result (length parser.new.tokens ≤ length parser.old.tokens) }
{
    if parser.begins_word(b"+") {
        parser.word(b"+")?;
        parser.pass::<InStatement>()?;
    }
    Ok(())
}

impl<'a> Read<'a> for Net<'a> {
    ghost form = { net_body };

    #[tactic(auto, unfolding(crate::specs::Grammar::net_body))]
    fn begins(parser: &Parser<'a, '_>) -> bool {
        parser.begins_text::<NetName>()
    }

    #[tactic(auto, unfolding(crate::specs::Grammar::net_body))]
    fn read(parser: &mut Parser<'a, '_>) -> Result<Net<'a>, Stop> {
        let name = parser.text::<NetName>()?;
        let connections = parser.many_more(Vec::with_capacity(parser.alloc, 2)?)?;
        any_options(parser)?;
        Ok(Net { name, connections })
    }
}

impl<'a> Read<'a> for NetStatement<'a> {
    ghost form = { net };

    #[tactic(auto, unfolding(crate::specs::Grammar::net))]
    fn begins(parser: &Parser<'a, '_>) -> bool {
        parser.begins_word(b"-")
    }

    #[tactic(auto, unfolding(crate::specs::Grammar::net))]
    fn read(parser: &mut Parser<'a, '_>) -> Result<NetStatement<'a>, Stop> {
        parser.word(b"-")?;
        if parser.begins_word(b"MUSTJOIN") {
            parser.word(b"MUSTJOIN")?;
            parser.pass::<InStatement>()?;
            parser.word(b";")?;
            return Ok(NetStatement::MustJoin);
        }
        let net = Net::read(parser)?;
        parser.word(b";")?;
        Ok(NetStatement::Net(net))
    }
}

impl<'a> Statement<'a> for NetStatement<'a> {
    #[tactic(auto, using(crate::proofs::Lawful::net_statement))]
    fn is_statement()
        ensures law { IsStatement net }
    {}
}
