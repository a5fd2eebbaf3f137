//! A DEF text without a fault of form, read in one pass.
ghost use Rattle.std.specs.Prelude.{◌≡◌, ◌<◌, ◌^◌, length, IfOk};
ghost use Rattle.def_syntax.specs.Designs.{IsDesignText, statements_of};
ghost use Rattle.def_syntax.specs.Reading.{fresh_found};
ghost use Rattle.def_syntax.specs.AtOnce.{read_wanted, read_at_once, without_components};
ghost use Rattle.def_syntax.specs.declared.design.DesignText.{DesignText as ghost_design};

use crate::design::DesignText;
use crate::found::Found;
use crate::frame::is_end;
use crate::statements::take_statement;
use base_types::{Lines, NoMemory, Stop};
use def_tokens::Def;
use std::alloc::Global;
use token_forms::Source;

/// What is read of a text up to `END DESIGN`, the components only where they are wanted; None where a statement isn't read, or no
/// `END DESIGN` stands.
fn read_wanted<'a>(
    alloc: Global,
    text: &'a [u8],
    components: bool,
) -> Result<Option<Found<'a>>, NoMemory>
    requires size { length text.now < 2 ^ 32 }
    ensures value { IfOk result (λ found. found ≡ read_wanted components text.now fresh_found (statements_of text.now)) }
{
    let mut lines = Lines::of(text);
    let mut source: Source<'_, Def> = Source::of(text);
    let mut spans = Vec::new(alloc);
    let mut found = Found::new(alloc);
    while take_statement(&mut source, &mut spans)? {
        let tokens = source.tokens(&spans);
        if is_end(b"DESIGN", &tokens) {
            return Ok(Some(found));
        }
        match found.wanted_turn(alloc, &mut lines, components, tokens) {
            Ok(()) => {}
            Err(Stop::NoForm) => return Ok(None),
            Err(Stop::NoMemory) => return Err(NoMemory),
        }
    }
    Ok(None)
}

/// The statements of a text, its components only where they are wanted; None where a section isn't closed, `END DESIGN` or UNITS
/// doesn't stand, or one that is read has a fault of form.
#[tactic(auto, unfolding(crate::specs::AtOnce::read_at_once))]
pub(crate) fn read_at_once<'a>(
    alloc: Global,
    text: &'a [u8],
    components: bool,
) -> Result<Option<DesignText<'a>>, NoMemory>
    requires size { length text.now < 2 ^ 32 }
    ensures value { IfOk result (λ design. design ≡ read_at_once components text.now) }
{
    match read_wanted(alloc, text, components)? {
        Some(found) => Ok(found.into_closed()),
        None => Ok(None),
    }
}

/// The statements of a DEF text that has no fault of form (LEF/DEF 5.8, in this profile), without those of its components, of which
/// there are then none; or want of memory. It is for a text that was read before.
pub fn read_without_components<'a>(
    alloc: Global,
    text: &'a [u8],
) -> Result<DesignText<'a>, NoMemory>
    requires size { length text.now < 2 ^ 32 }
    requires read { (t : ghost_design) × IsDesignText text.now t }
    ensures value { IfOk result (λ d. (t : ghost_design) → IsDesignText text.now t → d ≡ without_components t) }
{
    match read_at_once(alloc, text, false)? {
        Some(design) => Ok(design),
        // (never: such a text is read)
        None => Err(NoMemory),
    }
}
