//! The cells of elements, as they stand.
ghost use Rattle.std.specs.Prelude.{◌≡◌, ◌++◌, ◌*◌, ◌^◌, ◌≤◌, pos, ◌≤ℤ◌, ◌+ℤ◌, All, option_map, option_to_list, unsigned_abs, IfOk, OnOk};
ghost use Rattle.lef_pins.specs.Places.{IsLength, IsMeasured, IsShort, IsShortPoint, IsWithin, moved, turn, twice};
ghost use Rattle.def_reader.specs.Sound.{IsIn32Bits, IsSound, elements_in};
ghost use Rattle.design_places.specs.Ends.{Placed, placed_named, placed_of};
ghost use Rattle.draw_command.specs.Drawn.{corner_at, corners, element_cells, list_cells};

use base_types::{NoMemory, Point};
use chain_picture::Segment;
use def_reader::{Component, Design, Element, ElementList};
use lef_pins::{Macro, Macros, Orient, turn};
use std::alloc::Global;
use std::marker::Model;

/// A placed component: its macro, its point in database units, and how it is turned.
#[derive(Drop)]
struct Standing<'d> {
    shape: &'d Macro,
    at: Point,
    orient: Orient,
}

impl<'d> Model for Standing<'d> {
    ghost use Rattle.design_places.specs.Ends.{Placed};

    ghost Value = { Placed };

    ghost view = { λ s. record { shape = s.shape.now; at = s.at; orient = s.orient } };
}

/// A length of a LEF, in half database units.
fn twice(v: i64, units: i64) -> i64
    requires v { IsLength v }
    requires units { IsWithin (10 ^ 5) units }
    ensures value { result ≡ twice v units }
    ensures short { IsShort result }
{
    ((v + v) * units).div_euclid(1_000_000)
}

/// A coordinate, by twice another one further.
fn moved(x: i64, by: i64) -> i64
    requires x { IsWithin (2 ^ 41) x }
    requires by { IsWithin (2 ^ 31) by }
    ensures value { result ≡ x +ℤ (by +ℤ by) }
{
    x + (by + by)
}

/// Where a point of a placed macro stands.
fn corner_at(placed: &Standing<'_>, w: i64, h: i64, p: Point) -> Point
    requires placed { IsIn32Bits placed.now.at }
    requires w { IsShort w }
    requires h { IsShort h }
    requires p { IsShortPoint p }
    ensures value { result ≡ moved (turn placed.now.orient w h p) placed.now.at }
{
    let turned = turn(placed.orient, w, h, p);
    Point {
        x: moved(turned.x, placed.at.x),
        y: moved(turned.y, placed.at.y),
    }
}

/// Opposite corners of a placed cell, in half database units.
fn corners(placed: &Standing<'_>, units: i64) -> Segment
    requires measured { IsMeasured placed.now.shape }
    requires placed { IsIn32Bits placed.now.at }
    requires units { IsWithin (10 ^ 5) units }
    ensures value { result ≡ corners units placed.now }
{
    let w = twice(placed.shape.w, units);
    let h = twice(placed.shape.h, units);
    Segment {
        from: corner_at(placed, w, h, Point { x: 0, y: 0 }),
        to: corner_at(placed, w, h, Point { x: w, y: h }),
    }
}

fn standing_of<'d>(macros: &'d Macros, component: &Component) -> Option<Standing<'d>>
    ensures value { result ≡ placed_of macros.now component.now }
{
    let (at, orient) = component.place?;
    let shape = macros.get(&component.cell)?;
    Some(Standing { shape, at, orient })
}

/// The macros and the components of a design. Contracts see macros and design.
#[derive(Drop)]
pub(crate) struct Cells<'d> {
    macros: &'d Macros,
    design: &'d Design,
}

impl<'d> Model for Cells<'d> {
    ghost use Rattle.lef_pins.specs.Macros.{NamedMacros};
    ghost use Rattle.def_reader.specs.declared.design.Design.{Design};

    ghost Value = { NamedMacros × Design };

    ghost view = { λ c. (c.macros.now, c.design.now) };
}

impl<'d> Cells<'d> {
    /// The cells of a design.
    pub(crate) fn of(macros: &'d Macros, design: &'d Design) -> Cells<'d>
        ensures value { result ≡ (macros.now, design.now) }
    {
        Cells { macros, design }
    }

    /// The component of a name, where it is placed and has a macro.
    fn standing(&self, name: &[u8]) -> Option<Standing<'d>>
        ensures value { result ≡ placed_named self.now.0 self.now.1 name.now }
    {
        match self.design.components.find(name) {
            Some(component) => standing_of(self.macros, component),
            None => None,
        }
    }

    /// Appends the cell of a name.
    fn push_named(&self, cells: &mut Vec<Segment>, name: &[u8]) -> Result<(), NoMemory>
        requires design { IsSound self.now.1 }
        requires macros { All (λ m. IsMeasured m.1) self.now.0 }
        ensures value { OnOk result (cells.new.items ≡ cells.old.items ++ option_to_list (option_map (corners self.now.1.units) (placed_named self.now.0 self.now.1 name.now))) }
    {
        if let Some(standing) = self.standing(name) {
            cells.push(corners(&standing, self.design.units))?;
        }
        Ok(())
    }

    /// Appends the cells of elements.
    fn push_elements(&self, cells: &mut Vec<Segment>, elements: &[Element]) -> Result<(), NoMemory>
        requires design { IsSound self.now.1 }
        requires macros { All (λ m. IsMeasured m.1) self.now.0 }
        ensures value { OnOk result (cells.new.items ≡ cells.old.items ++ element_cells self.now.0 self.now.1 elements.now) }
    {
        for element in elements {
            self.push_named(cells, element.component.bytes())?;
        }
        Ok(())
    }

    /// Appends the cells of a list.
    fn push_list(&self, cells: &mut Vec<Segment>, list: &ElementList) -> Result<(), NoMemory>
        requires design { IsSound self.now.1 }
        requires macros { All (λ m. IsMeasured m.1) self.now.0 }
        ensures value { OnOk result (cells.new.items ≡ cells.old.items ++ element_cells self.now.0 self.now.1 (elements_in list.now)) }
    {
        match list {
            ElementList::Floating(elements) => self.push_elements(cells, elements.as_slice()),
            ElementList::Ordered(elements) => self.push_elements(cells, elements.as_slice()),
        }
    }

    /// The cells of lists.
    pub(crate) fn of_lists(
        &self,
        alloc: Global,
        lists: &[ElementList],
    ) -> Result<Vec<Segment>, NoMemory>
        requires design { IsSound self.now.1 }
        requires macros { All (λ m. IsMeasured m.1) self.now.0 }
        ensures value { IfOk result (λ cells. cells.items ≡ list_cells self.now.0 self.now.1 lists.now) }
    {
        let mut cells = Vec::new(alloc);
        for list in lists {
            self.push_list(&mut cells, list)?;
        }
        Ok(cells)
    }
}
