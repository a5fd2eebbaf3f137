//! The macros of a LEF.
ghost use Rattle.std.specs.Prelude.{◌≡◌, ◌||◌, true, not, codes, drop, OnOk, IfOk};
ghost use Rattle.lef_pins.specs.BlockReading.{inner_at, pin_item_at, macro_item_at, found_at};
ghost use Rattle.lef_pins.specs.Blocks.{begins_named, begins_shapes, ends_shapes, ends_named};
ghost use Rattle.lef_pins.specs.Reading.{gathered, put_statement, put_pin, put_macro_item, macro_start, macro_read};

use crate::ends::{begins_named, begins_shapes, ends_named, goes_on_named};
use crate::least::Least;
use crate::macros::{Macro, MacroPin};
use crate::names::Names;
use crate::pins::{PinReading, pass_shapes, read_pin, take_statement};
use crate::statements::{begins_origin, begins_size, is_bad, is_far, origin_values, size_values};
use crate::stretch::Stretch;
use base_types::{Name, NoMemory, Rows, plain_name};
use std::alloc::Global;

/// What is read of a macro: the least places of faults so far, also of what stands before the macro; whether it has a SIZE;
/// its SIZE, its ORIGIN, its pins and their names.
#[derive(Drop)]
pub(crate) struct MacroReading {
    pub(crate) least: Least,
    pub(crate) sized: bool,
    pub(crate) size: (i64, i64),
    pub(crate) origin: (i64, i64),
    pub(crate) pins: Rows<MacroPin>,
    pub(crate) names: Names,
}

impl MacroReading {
    /// Nothing of a macro.
    pub(crate) fn new(alloc: Global, least: Least) -> MacroReading
        ensures value { result ≡ macro_start least }
    {
        MacroReading {
            least,
            sized: false,
            size: (0, 0),
            origin: (0, 0),
            pins: Rows::new(alloc),
            names: Names::new(alloc),
        }
    }

    /// The macro.
    pub(crate) fn into_macro(self) -> Macro
        ensures value { result ≡ macro_read self }
    {
        Macro {
            w: self.size.0,
            h: self.size.1,
            ox: self.origin.0,
            oy: self.origin.1,
            pins: self.pins.fitted(),
        }
    }

    /// Adds a statement.
    #[tactic(auto, unfolding(crate::specs::Reading::put_statement))]
    fn put_statement(&mut self, s: &Stretch<'_, '_>)
        ensures value { self.new ≡ put_statement self.old s.now }
    {
        let place = s.start();
        self.least = self
            .least
            .with_syntax(is_bad(self.sized, s), place)
            .with_number(is_far(s), place);
        if begins_size(s) {
            self.size = size_values(s);
            self.sized = true;
        }
        if begins_origin(s) {
            self.origin = origin_values(s);
        }
    }

    /// Adds a pin of a plain name.
    #[tactic(auto, unfolding(crate::specs::Reading::put_pin))]
    fn put_pin(
        &mut self,
        alloc: Global,
        name: &[u8],
        place: u32,
        closed: bool,
        pin: PinReading,
    ) -> Result<(), NoMemory>
        ensures value { OnOk result (self.new ≡ put_pin self.old name.now place closed pin) }
    {
        let again = self.names.add(Vec::from_slice(alloc, name)?)?;
        self.pins.push(MacroPin {
            name: Name::copy(alloc, name)?,
            rect: pin.rect,
        })?;
        self.least = pin
            .least
            .with_syntax(!closed, place)
            .with_twice(again, place);
        Ok(())
    }
}

/// Takes the pin at the front of a macro.
fn read_pin_of(
    alloc: Global,
    rest: &mut Stretch<'_, '_>,
    m: &mut MacroReading,
) -> Result<(), NoMemory>
    requires pin { begins_named (codes "PIN") rest.old ≡ true }
    ensures value { OnOk result (m.new ≡ put_macro_item m.old (macro_item_at rest.old).0) }
    ensures rest { OnOk result (rest.new ≡ (macro_item_at rest.old).1) }
{
    let place = rest.start();
    let name = plain_name(alloc, rest.text(1))?;
    rest.skip(2);
    let mut pin = PinReading {
        least: m.least,
        rect: None,
    };
    let closed = read_pin(rest, name.bytes(), &mut pin);
    m.put_pin(alloc, name.bytes(), place, closed, pin)?;
    Ok(())
}

/// Takes the pin, the OBS, the DENSITY or the statement at the front of a macro.
fn read_macro_item(
    alloc: Global,
    rest: &mut Stretch<'_, '_>,
    m: &mut MacroReading,
) -> Result<(), NoMemory>
    ensures value { OnOk result (m.new ≡ put_macro_item m.old (macro_item_at rest.old).0) }
    ensures rest { OnOk result (rest.new ≡ (macro_item_at rest.old).1) }
{
    if begins_named(rest, b"PIN") {
        return read_pin_of(alloc, rest, m);
    }
    if begins_shapes(rest) {
        let place = rest.start();
        rest.skip(1);
        let closed = pass_shapes(rest);
        m.least = m.least.with_syntax(!closed, place);
        return Ok(());
    }
    let statement = take_statement(rest);
    m.put_statement(&statement);
    Ok(())
}

/// Takes what stands in a macro of a plain name, with its END, and tells whether the END stands there.
pub(crate) fn read_macro(
    alloc: Global,
    rest: &mut Stretch<'_, '_>,
    name: &[u8],
    m: &mut MacroReading,
) -> Result<bool, NoMemory>
    ensures value { OnOk result (m.new ≡ gathered put_macro_item m.old (found_at (ends_named name.now) macro_item_at rest.old).0) }
    ensures closed { IfOk result (λ closed. closed ≡ ends_named name.now (found_at (ends_named name.now) macro_item_at rest.old).1) }
    ensures rest { OnOk result (rest.new ≡ drop 2 (found_at (ends_named name.now) macro_item_at rest.old).1) }
{
    while goes_on_named(rest, name) {
        read_macro_item(alloc, rest, m)?;
    }
    let closed = ends_named(rest, name);
    rest.skip(2);
    Ok(closed)
}
