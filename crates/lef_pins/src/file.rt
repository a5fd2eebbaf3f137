//! The macros of a LEF text.
ghost use Rattle.std.specs.Prelude.{◌≡◌, ◌<◌, ◌^◌, true, codes, length, IfOk, OnOk};
ghost use Rattle.base_types.specs.declared.fault.Fault.{Fault as ghost_fault};
ghost use Rattle.base_types.specs.FirstFault.{IfFault, IsFirstFault};
ghost use Rattle.base_types.specs.Lines.{line_at};
ghost use Rattle.base_types.specs.Faults.{at_line};
ghost use Rattle.base_types.specs.declared.fault.FileKind.TheVariants.{Lef as lef_file};
ghost use Rattle.base_types.specs.declared.fault.ReadFault.TheVariants.{Fault as refused};
ghost use Rattle.token_forms.specs.Tokens.{Token};
ghost use Rattle.lef_pins.specs.BlockReading.{file_item_at, found_at, lef_at};
ghost use Rattle.lef_pins.specs.Blocks.{begins_named, ends_never};
ghost use Rattle.lef_pins.specs.Denoted.{DenotesMacros, AreMeasured};
ghost use Rattle.lef_pins.specs.Faults.{HoldsInLef};
ghost use Rattle.lef_pins.specs.Macros.{NamedMacros};
ghost use Rattle.lef_pins.specs.Reading.{gathered, put_macro, put_file_item, file_start};
ghost use Rattle.def_tokens.specs.DefTokens.{tokens_in};

use crate::blocks::{MacroReading, read_macro};
use crate::cuts::outer_len;
use crate::ends::begins_named;
use crate::least::Least;
use crate::macros::Macros;
use crate::stretch::Stretch;
use base_types::{Fault, FileKind, Kind, Lines, NoMemory, ReadFault, plain_name};
use def_tokens::def_tokens;
use list_laws::{found_if, lesser_place};
use std::alloc::Global;

/// What is read of a file: the least places of faults so far, that of a macro name which stood before, and the macros.
#[derive(Drop)]
pub(crate) struct FileReading {
    pub(crate) least: Least,
    pub(crate) again: Option<u32>,
    pub(crate) macros: Macros,
}

impl FileReading {
    /// Nothing of a file.
    fn new(alloc: Global) -> FileReading
        ensures value { result ≡ file_start }
    {
        FileReading {
            least: Least {
                syntax: None,
                number: None,
                twice: None,
            },
            again: None,
            macros: Macros::new(alloc),
        }
    }

    /// Adds a macro of a plain name.
    #[tactic(auto, unfolding(crate::specs::Reading::put_macro))]
    fn put_macro(
        &mut self,
        alloc: Global,
        name: &[u8],
        place: u32,
        closed: bool,
        m: MacroReading,
    ) -> Result<(), NoMemory>
        ensures value { OnOk result (self.new ≡ put_macro self.old name.now place closed m) }
    {
        self.least = m
            .least
            .with_syntax(!closed, place)
            .with_syntax(!m.sized, place);
        let again = self
            .macros
            .add(Vec::from_slice(alloc, name)?, m.into_macro())?;
        self.again = lesser_place(self.again, found_if(again, place));
        Ok(())
    }
}

/// Takes the macro at the front of a file.
fn read_macro_of(
    alloc: Global,
    rest: &mut Stretch<'_, '_>,
    file: &mut FileReading,
) -> Result<(), NoMemory>
    requires begins { begins_named (codes "MACRO") rest.old ≡ true }
    ensures value { OnOk result (file.new ≡ put_file_item file.old (file_item_at rest.old).0) }
    ensures rest { OnOk result (rest.new ≡ (file_item_at rest.old).1) }
{
    let place = rest.start();
    let name = plain_name(alloc, rest.text(1))?;
    rest.skip(2);
    let mut m = MacroReading::new(alloc, file.least);
    let closed = read_macro(alloc, rest, name.bytes(), &mut m)?;
    file.put_macro(alloc, name.bytes(), place, closed, m)?;
    Ok(())
}

/// Takes the macro at the front of a file, or what passes over there.
fn read_file_item(
    alloc: Global,
    rest: &mut Stretch<'_, '_>,
    file: &mut FileReading,
) -> Result<(), NoMemory>
    ensures value { OnOk result (file.new ≡ put_file_item file.old (file_item_at rest.old).0) }
    ensures rest { OnOk result (rest.new ≡ (file_item_at rest.old).1) }
{
    if begins_named(rest, b"MACRO") {
        return read_macro_of(alloc, rest, file);
    }
    rest.skip(outer_len(rest));
    Ok(())
}

/// What is read of some tokens of a file.
fn read_file(alloc: Global, mut rest: Stretch<'_, '_>) -> Result<FileReading, NoMemory>
    ensures value { IfOk result (λ file. file ≡ gathered put_file_item file_start (lef_at rest.entry)) }
{
    let mut file = FileReading::new(alloc);
    while rest.len() != 0 {
        read_file_item(alloc, &mut rest, &mut file)?;
    }
    Ok(file)
}

/// The fault of a kind at a place.
fn fault_at(bytes: &[u8], kind: Kind, place: u32) -> ReadFault
    ensures value { result ≡ refused (at_line kind lef_file (line_at bytes.now place)) }
{
    let line = Lines::of(bytes).line_of(place as usize);
    ReadFault::Fault(Fault::at_line(kind, FileKind::Lef, line))
}

/// The macros of a LEF text of less than 4 GiB by their plain names, with SIZE, ORIGIN and the first RECT of each pin, or its
/// first fault: LefSyntax, where a SIZE, an ORIGIN or a RECT that is read is of no form, a macro hasn't exactly one SIZE, or
/// a macro, a pin, a port, an OBS or a DENSITY has no END; then LefNumber, where a number of one of these has more than six
/// digits behind the point or exceeds two metres in size; then LefTwice, where a macro has the name of one before it, or a
/// pin that of one before it in its macro: each at the least line that has it; or want of memory (LEF 5.8, MACRO).
pub fn read_macros(alloc: Global, bytes: &[u8]) -> Result<Macros, ReadFault>
    requires size { length bytes.now < 2 ^ 32 }
    ensures macros { IfOk result (DenotesMacros bytes.now) }
    ensures only { IfOk result (λ m. (other : NamedMacros) → DenotesMacros bytes.now other → other ≡ m) }
    // So places can be told.
    ensures measured { IfOk result AreMeasured }
    ensures fault { IfFault result (IsFirstFault (HoldsInLef bytes.now)) }
    ensures no_fault { OnOk result ((fault : ghost_fault) → HoldsInLef bytes.now fault → ⊥) }
{
    let spans = def_tokens(alloc, bytes)?;
    let file = read_file(alloc, Stretch::of(bytes, spans.as_slice()))?;
    if let Some(place) = file.least.syntax {
        return Err(fault_at(bytes, Kind::LefSyntax, place));
    }
    if let Some(place) = file.least.number {
        return Err(fault_at(bytes, Kind::LefNumber, place));
    }
    if let Some(place) = lesser_place(file.least.twice, file.again) {
        return Err(fault_at(bytes, Kind::LefTwice, place));
    }
    Ok(file.macros)
}
