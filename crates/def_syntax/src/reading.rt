//! A DEF text, read as its statements.
ghost use Rattle.std.specs.Prelude.{◌≡◌, ◌<◌, ◌^◌, length, Result, Ok, Err};
ghost use Rattle.base_types.specs.Lines.{line_at};
ghost use Rattle.base_types.specs.Faults.{at_line};
ghost use Rattle.base_types.specs.declared.fault.FileKind.TheVariants.{Def as def_file};
ghost use Rattle.base_types.specs.declared.fault.ReadFault.TheVariants.{Fault as fault};
ghost use Rattle.base_types.specs.declared.kind.Kind.TheVariants.{DefSyntax as def_syntax};
ghost use Rattle.def_syntax.specs.Designs.{IsExactDesign, statements_of};
ghost use Rattle.def_syntax.specs.Reading.{Reads, read_from, read_design, fresh_found, with_design};

use crate::at_once::read_at_once;
use crate::design::DesignText;
use crate::found::Found;
use crate::frame::{is_end, start_of};
use crate::outline::find_outline;
use crate::statements::take_statement;
use base_types::{Fault, FileKind, Kind, Lines, ReadFault, Stop, line_of};
use def_tokens::Def;
use std::alloc::Global;
use token_forms::Source;

/// The fault at a place.
fn fault_at(lines: &mut Lines<'_>, at: u32) -> ReadFault
    ensures value { result ≡ fault (at_line def_syntax def_file (line_at lines.old at)) }
    ensures same { lines.new ≡ lines.old }
{
    let line = lines.line_of(at as usize);
    ReadFault::Fault(Fault::at_line(Kind::DefSyntax, FileKind::Def, line))
}

/// The statements of a text up to `END DESIGN`, or the fault of the first that isn't read; the section at one place isn't closed.
fn read_from<'a>(
    alloc: Global,
    text: &'a [u8],
    unclosed: Option<u32>,
) -> Result<Found<'a>, ReadFault>
    requires size { length text.now < 2 ^ 32 }
    ensures value { Reads text.now result (read_from text.now unclosed fresh_found (statements_of text.now)) }
{
    let mut lines = Lines::of(text);
    let mut source: Source<'_, Def> = Source::of(text);
    let mut spans = Vec::new(alloc);
    let mut found = Found::new(alloc);
    while take_statement(&mut source, &mut spans)? {
        let tokens = source.tokens(&spans);
        if is_end(b"DESIGN", &tokens) {
            return Ok(found);
        }
        let start = start_of(&tokens);
        match found.turn(alloc, &mut lines, unclosed, tokens) {
            Ok(()) => {}
            Err(Stop::NoForm) => return Err(fault_at(&mut lines, start)),
            Err(Stop::NoMemory) => return Err(ReadFault::NoMemory),
        }
    }
    Ok(found)
}

/// What is read, with its UNITS.
fn with_design<'a>(
    lines: &mut Lines<'_>,
    read: Result<Found<'a>, ReadFault>,
) -> Result<DesignText<'a>, ReadFault>
    ensures value { (r : _) → Reads lines.old read.entry r → Reads lines.old result (with_design r) }
{
    match read?.into_design() {
        Some(design) => Ok(design),
        None => Err(fault_at(lines, 0)),
    }
}

/// The statements of a text by its outline, or its first fault of form.
#[tactic(auto, unfolding(crate::specs::Reading::read_design))]
fn read_outlined<'a>(alloc: Global, text: &'a [u8]) -> Result<DesignText<'a>, ReadFault>
    requires size { length text.now < 2 ^ 32 }
    ensures value { Reads text.now result (read_design text.now) }
{
    let mut lines = Lines::of(text);
    let Some(outline) = find_outline(alloc, text)? else {
        return Err(fault_at(&mut lines, 0));
    };
    if !outline.units {
        return Err(fault_at(&mut lines, 0));
    }
    let read = read_from(alloc, text, outline.unclosed());
    with_design(&mut lines, read)
}

/// The statements of a DEF text up to `END DESIGN`, those of its read sections and its UNITS; or DefSyntax, at the line of its
/// first fault of form (LEF/DEF 5.8, in this profile): a file without `END DESIGN` or UNITS, at its first line; a section
/// that isn't closed, at its first token; a section's first statement that isn't its name, a count and `;`; a statement within
/// a section that is of no form there; a second UNITS.
pub fn read_design_text<'a>(alloc: Global, text: &'a [u8]) -> Result<DesignText<'a>, ReadFault>
    requires size { length text.now < 2 ^ 32 }
    // The value is what the text's statements spell, and no other; a fault is the one at the least place of all that stand.
    ensures exactly { IsExactDesign text.now result }
    ensures value { Reads text.now result (read_design text.now) }
{
    // The outline tells only at which of several faults reading stops, so a text without one is read without it.
    match read_at_once(alloc, text, true)? {
        Some(design) => Ok(design),
        None => read_outlined(alloc, text),
    }
}
