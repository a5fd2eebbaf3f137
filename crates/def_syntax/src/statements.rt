//! The statements of a text, one by one.
ghost use Rattle.std.specs.Prelude.{◌≡◌, ◌<◌, ◌∷◌, [], true, if◌then◌else◌, codes, length, IfOk, OnOk};
ghost use Rattle.token_forms.specs.Parsing.{GivesAll};
ghost use Rattle.token_forms.specs.Tokens.{tokens_of, tokens_left, AreSpansOf};
ghost use Rattle.def_tokens.specs.DefStatements.{def_statements};
ghost use Rattle.def_syntax.specs.Cuts.{step_to, first_step, cut_step};
ghost use Rattle.def_syntax.specs.Reading.{statement_of};

use base_types::{NoMemory, Span, Stop};
use def_tokens::Def;
use std::alloc::Global;
use token_forms::{Cut, Parser, Read, Source, Step, Tokens};

/// Where a statement ends, by its first token.
#[derive(Clone, Copy, Drop)]
pub(crate) enum StatementCut {
    /// It isn't met yet.
    First,
    /// `END`, behind which one token more stands.
    End,
    /// `BEGINEXT`, up to `ENDEXT`.
    Extension,
    /// Any other, up to the semicolon.
    Other,
}

/// What a token does where a statement goes up to the semicolon.
#[inline(always)]
fn to_semicolon(text: &[u8]) -> Step
    ensures value { result ≡ step_to (codes ";") text.now }
{
    match text {
        [b';'] => Step::Closes,
        _ => Step::GoesOn,
    }
}

/// What it does where one goes up to `ENDEXT`.
fn to_end_of_extension(text: &[u8]) -> Step
    ensures value { result ≡ step_to (codes "ENDEXT") text.now }
{
    if text == b"ENDEXT".as_slice() {
        Step::Closes
    } else {
        Step::GoesOn
    }
}

impl StatementCut {
    /// What the first token does.
    fn first(&mut self, text: &[u8]) -> Step
        ensures value { (result, self.new) ≡ first_step text.now }
    {
        if text == b"END".as_slice() {
            *self = StatementCut::End;
            return Step::GoesOn;
        }
        if text == b"PROPERTYDEFINITIONS".as_slice() {
            *self = StatementCut::Other;
            return Step::Closes;
        }
        if text == b"BEGINEXT".as_slice() {
            *self = StatementCut::Extension;
            return Step::GoesOn;
        }
        *self = StatementCut::Other;
        to_semicolon(text)
    }
}

impl Cut for StatementCut {
    ghost step = { cut_step };

    #[inline(always)]
    fn step(&mut self, text: &[u8]) -> Step {
        match *self {
            StatementCut::First => self.first(text),
            StatementCut::End => Step::Closes,
            StatementCut::Extension => to_end_of_extension(text),
            StatementCut::Other => to_semicolon(text),
        }
    }
}

/// Takes the tokens of the next statement, where one is left; their spans replace those that stood in the `Vec`.
pub(crate) fn take_statement(
    source: &mut Source<'_, Def>,
    spans: &mut Vec<Span>,
) -> Result<bool, NoMemory>
    ensures source { source.new.source ≡ source.old.source }
    ensures within { IfOk result (λ some. AreSpansOf source.old.source spans.new.items) }
    ensures value { IfOk result (λ some. def_statements (tokens_left source.old)
        ≡ (if some then tokens_of source.old.source spans.new.items ∷ def_statements (tokens_left source.new) else [])) }
    ensures shorter { IfOk result (λ some. some ≡ true → length (tokens_left source.new) < length (tokens_left source.old)) }
{
    source.statement(StatementCut::First, spans)?;
    Ok(!spans.as_slice().is_empty())
}

/// The value that a statement's tokens spell, all of them.
#[tactic(auto, unfolding(crate::specs::Reading::statement_of))]
pub(crate) fn statement_of<'a, X: Read<'a>>(
    alloc: Global,
    tokens: Tokens<'a, '_>,
) -> Result<X, Stop>
    ensures value { GivesAll result (statement_of X.form tokens.entry) }
{
    let mut parser = Parser { alloc, tokens };
    let value = X::read(&mut parser)?;
    if parser.tokens.is_empty() {
        Ok(value)
    } else {
        Err(Stop::NoForm)
    }
}
