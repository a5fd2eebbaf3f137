//! The placed components of a design by name.
ghost use Rattle.std.specs.Prelude.{◌≡◌, ◌^◌, pos, ◌≤ℤ◌, option_and_then};
ghost use Rattle.std.specs.List.{find};
ghost use Rattle.std.specs.Str.{bytes_eq};
ghost use Rattle.lef_pins.specs.Places.{pin_place, IsMeasured};
ghost use Rattle.wire_cost.specs.Lengths.{IsNear};
ghost use Rattle.def_reader.specs.Sound.{IsIn32Bits};
ghost use Rattle.design_places.specs.Ends.{placed_of};

use base_types::{Name, Point};
use def_reader::{Component, NamedRows};
use lef_pins::{Macro, Macros, Orient, pin_place};
use std::marker::Model;

/// A placed component: its macro, its point in database units, and how it is turned.
#[derive(Drop)]
pub(crate) struct Standing<'d> {
    shape: &'d Macro,
    at: Point,
    orient: Orient,
}

impl<'d> Model for Standing<'d> {
    ghost use Rattle.design_places.specs.Ends.{Placed};

    ghost Value = { Placed };

    ghost view = { λ s. record { shape = s.shape.now; at = s.at; orient = s.orient } };
}

fn standing_of<'d>(macros: &'d Macros, component: &Component) -> Option<Standing<'d>>
    ensures value { result ≡ placed_of macros.now component.now }
{
    let (at, orient) = component.place?;
    let shape = macros.get(&component.cell)?;
    Some(Standing { shape, at, orient })
}

impl<'d> Standing<'d> {
    /// Where a pin of it stands, in half database units.
    pub(crate) fn point(&self, pin: &Name, units: i64) -> Point
        requires measured { IsMeasured self.now.shape }
        requires placed { IsIn32Bits self.now.at }
        requires units_some { pos 1 ≤ℤ units }
        requires units_most { units ≤ℤ pos (10 ^ 5) }
        ensures value { result ≡ pin_place self.now.shape pin.now self.now.at self.now.orient units }
        ensures near { IsNear result }
    {
        pin_place(self.shape, pin, self.at, self.orient, units)
    }
}

/// Components beside the macros. Contracts see the macros and the components.
#[derive(Drop)]
pub(crate) struct Components<'d> {
    macros: &'d Macros,
    components: &'d NamedRows<Component>,
}

impl<'d> Model for Components<'d> {
    ghost use Rattle.std.specs.Prelude.{List};
    ghost use Rattle.lef_pins.specs.Macros.{NamedMacros};
    ghost use Rattle.def_reader.specs.declared.design.Component.{Component};

    ghost Value = { NamedMacros × List Component };

    ghost view = { λ c. (c.macros.now, c.components.now) };
}

impl<'d> Components<'d> {
    /// The components of a design.
    pub(crate) fn of(macros: &'d Macros, components: &'d NamedRows<Component>) -> Components<'d>
        ensures value { result ≡ (macros.now, components.now) }
    {
        Components { macros, components }
    }

    /// The component of a name, where it is placed and has a macro.
    pub(crate) fn standing(&self, name: &[u8]) -> Option<Standing<'d>>
        ensures value { result ≡ option_and_then (placed_of self.now.0) (find (λ c. bytes_eq c.name name.now) self.now.1) }
    {
        match self.components.find(name) {
            Some(component) => standing_of(self.macros, component),
            None => None,
        }
    }
}
