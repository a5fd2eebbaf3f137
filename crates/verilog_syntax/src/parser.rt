//! The statements of a module, each production a function.
ghost use Rattle.std.specs.Prelude.{◌≡◌, ◌<◌, ◌≤◌, length, OnOk};
ghost use Rattle.token_forms.specs.Parsing.{Gives, GivesAll};
ghost use Rattle.token_forms.specs.Classes.{begins};
ghost use Rattle.token_forms.specs.Forms.{maybe, listed};
ghost use Rattle.verilog_syntax.specs.Grammar.{name, connection, connections, instance, assign, kind_of, kind, range, declaration, statement, listed_or_none, ports, header};
ghost use Rattle.verilog_syntax.specs.Reading.{statement_of, header_of};

use crate::expression::{assigned, pin_expression, target};
use crate::kinds::{Decimal, KindWord, Name};
use crate::statement::{Connection, Declared, Range, Statement};
use base_types::{Boxed, Rows, Stop};
use std::alloc::Global;
use token_forms::{Parser, Read, TokenText, Tokens};

impl<'a> Read<'a> for Connection<'a> {
    ghost form = { connection };

    #[inline(always)]
    #[tactic(auto, unfolding(crate::specs::Grammar::connection))]
    fn begins(parser: &Parser<'a, '_>) -> bool {
        parser.begins_word(b".")
    }

    #[inline(always)]
    #[tactic(auto, unfolding(crate::specs::Grammar::connection))]
    fn read(parser: &mut Parser<'a, '_>) -> Result<Connection<'a>, Stop> {
        parser.word(b".")?;
        let pin = parser.text::<Name>()?;
        let expression = pin_expression(parser)?;
        Ok(Connection { pin, expression })
    }
}

#[tactic(auto, unfolding(crate::specs::Grammar::connections, crate::specs::Grammar::connection))]
fn any_connections<'a>(parser: &mut Parser<'a, '_>) -> Result<Rows<Connection<'a>>, Stop>
    ensures value { Gives result parser.new.tokens (connections.reads parser.old.tokens) }
    ensures shorter { OnOk result (length parser.new.tokens ≤ length parser.old.tokens) }
{
    if Connection::begins(parser) {
        parser.listed()
    } else {
        Ok(Rows::new(parser.alloc))
    }
}

#[tactic(auto, unfolding(crate::specs::Grammar::instance))]
fn instance<'a>(parser: &mut Parser<'a, '_>) -> Result<Statement<'a>, Stop>
    ensures value { Gives result parser.new.tokens (instance.reads parser.old.tokens) }
    ensures shorter { OnOk result (length parser.new.tokens < length parser.old.tokens) }
{
    let cell = parser.text::<Name>()?;
    let name = parser.text::<Name>()?;
    parser.word(b"(")?;
    let connections = any_connections(parser)?;
    parser.word(b")")?;
    parser.word(b";")?;
    Ok(Statement::Instance {
        cell,
        name,
        connections,
    })
}

#[tactic(auto, unfolding(crate::specs::Grammar::assign))]
fn assign<'a>(parser: &mut Parser<'a, '_>) -> Result<Statement<'a>, Stop>
    ensures value { Gives result parser.new.tokens (assign.reads parser.old.tokens) }
    ensures shorter { OnOk result (length parser.new.tokens < length parser.old.tokens) }
{
    parser.word(b"assign")?;
    let left = target(parser)?;
    let right = assigned(parser)?;
    Ok(Statement::Assign {
        left: Boxed::of(parser.alloc, left)?,
        right: Boxed::of(parser.alloc, right)?,
    })
}

/// What a declaration's first word makes of its names.
#[tactic(auto, unfolding(crate::specs::Grammar::kind_of))]
fn kind_of(word: &[u8]) -> Option<Declared>
    ensures value { result ≡ kind_of word.now }
{
    match word {
        [b'i', ..] if word == b"input".as_slice() => Some(Declared::Input),
        [b'i', ..] if word == b"inout".as_slice() => Some(Declared::Inout),
        [b'o', ..] if word == b"output".as_slice() => Some(Declared::Output),
        [b's', ..] if word == b"supply0".as_slice() => Some(Declared::Supply0),
        [b's', ..] if word == b"supply1".as_slice() => Some(Declared::Supply1),
        [b't', ..] if word == b"tri".as_slice() => Some(Declared::Tri),
        [b'w', ..] if word == b"wire".as_slice() => Some(Declared::Wire),
        _ => None,
    }
}

#[tactic(auto, unfolding(crate::specs::Grammar::kind))]
fn kind(parser: &mut Parser<'_, '_>) -> Result<Declared, Stop>
    ensures value { Gives result parser.new.tokens (kind.reads parser.old.tokens) }
    ensures shorter { OnOk result (length parser.new.tokens < length parser.old.tokens) }
{
    let word = parser.text::<KindWord>()?;
    kind_of(word.text()).ok_or(Stop::NoForm)
}

impl<'a> Read<'a> for Range<'a> {
    ghost form = { range };

    #[tactic(auto, unfolding(crate::specs::Grammar::range))]
    fn begins(parser: &Parser<'a, '_>) -> bool {
        parser.begins_word(b"[")
    }

    #[tactic(auto, unfolding(crate::specs::Grammar::range))]
    fn read(parser: &mut Parser<'a, '_>) -> Result<Range<'a>, Stop> {
        parser.word(b"[")?;
        let left = parser.text::<Decimal>()?;
        parser.word(b":")?;
        let right = parser.text::<Decimal>()?;
        parser.word(b"]")?;
        Ok(Range { left, right })
    }
}

fn any_range<'a>(parser: &mut Parser<'a, '_>) -> Result<Option<Range<'a>>, Stop>
    ensures value { Gives result parser.new.tokens ((maybe range).reads parser.old.tokens) }
    ensures shorter { OnOk result (length parser.new.tokens ≤ length parser.old.tokens) }
{
    if Range::begins(parser) {
        Ok(Some(Range::read(parser)?))
    } else {
        Ok(None)
    }
}

#[tactic(auto, unfolding(crate::specs::Grammar::declaration))]
fn declaration<'a>(parser: &mut Parser<'a, '_>) -> Result<Statement<'a>, Stop>
    ensures value { Gives result parser.new.tokens (declaration.reads parser.old.tokens) }
    ensures shorter { OnOk result (length parser.new.tokens < length parser.old.tokens) }
{
    let kind = kind(parser)?;
    let range = any_range(parser)?;
    let names = parser.texts::<Name>()?;
    parser.word(b";")?;
    Ok(Statement::Declare { kind, range, names })
}

impl<'a> Read<'a> for Statement<'a> {
    ghost form = { statement };

    #[tactic(auto, unfolding(crate::specs::Grammar::statement, crate::specs::Grammar::assign, crate::specs::Grammar::declaration, crate::specs::Grammar::kind, crate::specs::Grammar::instance))]
    fn begins(parser: &Parser<'a, '_>) -> bool {
        parser.begins_word(b"assign")
            || parser.begins_text::<KindWord>()
            || parser.begins_text::<Name>()
    }

    #[tactic(auto, unfolding(crate::specs::Grammar::statement))]
    fn read(parser: &mut Parser<'a, '_>) -> Result<Statement<'a>, Stop> {
        if begins_assign(parser) {
            return assign(parser);
        }
        if begins_declaration(parser) {
            return declaration(parser);
        }
        instance(parser)
    }
}

#[tactic(auto, unfolding(crate::specs::Grammar::assign))]
fn begins_assign(parser: &Parser<'_, '_>) -> bool
    ensures value { result ≡ begins assign.starts parser.now.tokens }
{
    parser.begins_word(b"assign")
}

#[tactic(auto, unfolding(crate::specs::Grammar::declaration, crate::specs::Grammar::kind))]
fn begins_declaration(parser: &Parser<'_, '_>) -> bool
    ensures value { result ≡ begins declaration.starts parser.now.tokens }
{
    parser.begins_text::<KindWord>()
}

fn any_names<'a>(parser: &mut Parser<'a, '_>) -> Result<Option<Rows<TokenText<'a>>>, Stop>
    ensures value { Gives result parser.new.tokens ((maybe (listed name ",")).reads parser.old.tokens) }
    ensures shorter { OnOk result (length parser.new.tokens ≤ length parser.old.tokens) }
{
    if parser.begins_text::<Name>() {
        Ok(Some(parser.texts::<Name>()?))
    } else {
        Ok(None)
    }
}

fn listed_or_none<'a>(alloc: Global, names: Option<Rows<TokenText<'a>>>) -> Rows<TokenText<'a>>
    ensures value { result ≡ listed_or_none names.entry }
{
    match names {
        Some(names) => names,
        None => Rows::new(alloc),
    }
}

#[tactic(auto, unfolding(crate::specs::Grammar::ports))]
fn ports<'a>(parser: &mut Parser<'a, '_>) -> Result<Rows<TokenText<'a>>, Stop>
    ensures value { Gives result parser.new.tokens (ports.reads parser.old.tokens) }
    ensures shorter { OnOk result (length parser.new.tokens < length parser.old.tokens) }
{
    parser.word(b"(")?;
    let names = any_names(parser)?;
    parser.word(b")")?;
    Ok(listed_or_none(parser.alloc, names))
}

#[tactic(auto, unfolding(crate::specs::Grammar::ports))]
fn begins_ports(parser: &Parser<'_, '_>) -> bool
    ensures value { result ≡ begins ports.starts parser.now.tokens }
{
    parser.begins_word(b"(")
}

fn any_ports<'a>(parser: &mut Parser<'a, '_>) -> Result<Option<Rows<TokenText<'a>>>, Stop>
    ensures value { Gives result parser.new.tokens ((maybe ports).reads parser.old.tokens) }
    ensures shorter { OnOk result (length parser.new.tokens ≤ length parser.old.tokens) }
{
    if begins_ports(parser) {
        Ok(Some(ports(parser)?))
    } else {
        Ok(None)
    }
}

#[tactic(auto, unfolding(crate::specs::Grammar::header))]
fn header<'a>(parser: &mut Parser<'a, '_>) -> Result<Statement<'a>, Stop>
    ensures value { Gives result parser.new.tokens (header.reads parser.old.tokens) }
    ensures shorter { OnOk result (length parser.new.tokens < length parser.old.tokens) }
{
    parser.word(b"module")?;
    let name = parser.text::<Name>()?;
    let ports = any_ports(parser)?;
    parser.word(b";")?;
    let ports = listed_or_none(parser.alloc, ports);
    Ok(Statement::Module { name, ports })
}

/// The statement of these tokens, of all of them.
#[tactic(auto, unfolding(crate::specs::Reading::statement_of))]
pub(crate) fn statement_of<'a>(alloc: Global, tokens: Tokens<'a, '_>) -> Result<Statement<'a>, Stop>
    ensures value { GivesAll result (statement_of tokens.entry) }
{
    let mut parser = Parser { alloc, tokens };
    let statement = Statement::read(&mut parser)?;
    if parser.tokens.is_empty() {
        Ok(statement)
    } else {
        Err(Stop::NoForm)
    }
}

/// The header that has these tokens, all of them.
#[tactic(auto, unfolding(crate::specs::Reading::header_of))]
pub(crate) fn header_of<'a>(alloc: Global, tokens: Tokens<'a, '_>) -> Result<Statement<'a>, Stop>
    ensures value { GivesAll result (header_of tokens.entry) }
{
    let mut parser = Parser { alloc, tokens };
    let header = header(&mut parser)?;
    if parser.tokens.is_empty() {
        Ok(header)
    } else {
        Err(Stop::NoForm)
    }
}
