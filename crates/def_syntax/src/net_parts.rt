//! A statement of NETS with its options, as a writer needs it.
ghost use Rattle.std.specs.Prelude.{◌≡◌, false, true};
ghost use Rattle.token_forms.specs.Laws.{IsStatement};
ghost use Rattle.def_syntax.specs.Grammar.{net_option, net_parts};

use crate::kinds::{InNets, NetName};
use crate::net::Connection;
use crate::options::unread;
use base_types::{Rows, Span, Stop};
use token_forms::{Parser, Read, Statement, TokenText};

/// An option of a net: its first word, if one stands behind the `+`, and its place from the `+` to its last token. It is wiring
/// where its word is `ROUTED`, `FIXED`, `COVER`, `NOSHIELD`, `SUBNET` or `VPIN`.
#[derive(Drop)]
pub struct NetOption<'a> {
    pub word: Option<TokenText<'a>>,
    pub span: Span,
}

/// `- name connection .. option .. ;`: a net with each of its options.
#[derive(Drop)]
pub struct NetParts<'a> {
    pub name: TokenText<'a>,
    pub connections: Rows<Connection>,
    pub options: Rows<NetOption<'a>>,
}

impl<'a> Read<'a> for NetOption<'a> {
    ghost form = { net_option false };

    #[tactic(auto, unfolding(crate::specs::Grammar::net_option))]
    fn begins(parser: &Parser<'a, '_>) -> bool {
        parser.begins_word(b"+")
    }

    #[tactic(auto, unfolding(crate::specs::Grammar::net_option))]
    fn read(parser: &mut Parser<'a, '_>) -> Result<NetOption<'a>, Stop> {
        let before = parser.tokens.again();
        parser.word(b"+")?;
        let word = unread::<InNets>(parser)?;
        let span = before.place_before(parser.tokens.len());
        Ok(NetOption { word, span })
    }
}

impl<'a> Read<'a> for NetParts<'a> {
    ghost form = { net_parts };

    #[tactic(auto, unfolding(crate::specs::Grammar::net_parts))]
    fn begins(parser: &Parser<'a, '_>) -> bool {
        parser.begins_word(b"-")
    }

    #[tactic(auto, unfolding(crate::specs::Grammar::net_parts))]
    fn read(parser: &mut Parser<'a, '_>) -> Result<NetParts<'a>, Stop> {
        parser.word(b"-")?;
        let name = parser.text::<NetName>()?;
        let connections = parser.many()?;
        let options = parser.many()?;
        parser.word(b";")?;
        Ok(NetParts {
            name,
            connections,
            options,
        })
    }
}

impl<'a> Statement<'a> for NetParts<'a> {
    #[tactic(auto, using(crate::proofs::Lawful::parts_statement))]
    fn is_statement()
        ensures law { IsStatement net_parts }
    {}
}
