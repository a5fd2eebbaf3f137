//! What a text's statements say of its sections by their first tokens, before any section is read.
ghost use Rattle.std.specs.Prelude.{◌≡◌, ◌<◌, ◌^◌, length, IfOk, is_some, OnOk};
ghost use Rattle.def_syntax.specs.Designs.{statements_of};
ghost use Rattle.def_syntax.specs.Grammar.{units};
ghost use Rattle.def_syntax.specs.Reading.{statement_of, outline_turn, outline_from, fresh_outline, unclosed_of};

use crate::frame::{SectionKind, is_end, opened_by, start_of, word_of};
use crate::statements::{statement_of, take_statement};
use crate::units::Units;
use base_types::{NoMemory, Stop};
use def_tokens::Def;
use std::alloc::Global;
use token_forms::{Source, Tokens};

/// The section that is open, where the last one was opened, and whether UNITS stands outside sections.
#[derive(Drop)]
pub(crate) struct Outline {
    section: Option<SectionKind>,
    start: u32,
    pub(crate) units: bool,
}

/// Whether a statement is UNITS of its form.
fn is_units(alloc: Global, tokens: Tokens<'_, '_>) -> Result<bool, NoMemory>
    ensures value { IfOk result (λ found. found ≡ is_some (statement_of units tokens.entry)) }
{
    match statement_of::<Units>(alloc, tokens) {
        Ok(_) => Ok(true),
        Err(Stop::NoForm) => Ok(false),
        Err(Stop::NoMemory) => Err(NoMemory),
    }
}

impl Outline {
    /// Where the section stands that isn't closed.
    pub(crate) fn unclosed(&self) -> Option<u32>
        ensures value { result ≡ unclosed_of self.now }
    {
        match self.section {
            Some(_) => Some(self.start),
            None => None,
        }
    }

    /// Notes a statement.
    #[tactic(auto, unfolding(crate::specs::Reading::outline_turn))]
    fn turn(&mut self, alloc: Global, tokens: Tokens<'_, '_>) -> Result<(), NoMemory>
        ensures value { OnOk result (self.new ≡ outline_turn self.old tokens.entry) }
    {
        match self.section {
            Some(kind) => {
                if is_end(word_of(kind), &tokens) {
                    self.section = None;
                }
            }
            None => match opened_by(&tokens) {
                Some(kind) => {
                    self.section = Some(kind);
                    self.start = start_of(&tokens);
                }
                None => self.units = is_units(alloc, tokens)? || self.units,
            },
        }
        Ok(())
    }
}

/// The outline of a text's statements up to `END DESIGN`, or nothing where there is none.
pub(crate) fn find_outline(alloc: Global, text: &[u8]) -> Result<Option<Outline>, NoMemory>
    requires size { length text.now < 2 ^ 32 }
    ensures value { IfOk result (λ found. found ≡ outline_from fresh_outline (statements_of text.now)) }
{
    let mut source: Source<'_, Def> = Source::of(text);
    let mut spans = Vec::new(alloc);
    let mut outline = Outline {
        section: None,
        start: 0,
        units: false,
    };
    while take_statement(&mut source, &mut spans)? {
        let tokens = source.tokens(&spans);
        if is_end(b"DESIGN", &tokens) {
            return Ok(Some(outline));
        }
        outline.turn(alloc, tokens)?;
    }
    Ok(None)
}
