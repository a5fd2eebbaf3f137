//! Numbers beyond their limits.
ghost use Rattle.std.specs.Prelude.{◌≡◌, Bool, [], ◌∷◌};
ghost use Rattle.std.specs.List.{list_any};
ghost use Rattle.def_reader.specs.Designs.{max_bits_in};
ghost use Rattle.def_reader.specs.Faults.{are_no_units, is_far, has_far_component, has_far_pin, are_many, have_many, has_many, has_many_bits, FailsAt, NumberAt};
ghost use Rattle.list_laws.specs.Leasts.{IsLeast};

use crate::convert::point_of;
use crate::numbers::{bits, units};
use def_syntax::{
    Chain, Component, DesignPin, DesignText, Element, ElementList, Located, Placement, Units,
};
use list_laws::{lesser, line_if};
use token_forms::TokenText;

/// What has numbers that may lie beyond their limits.
trait Judged {
    ghost bad: { Self → Bool };

    /// Whether one of them does.
    fn is_bad(&self) -> bool
        ensures value { result ≡ bad self.now };
}

fn is_far(place: &Option<Placement<'_>>) -> bool
    ensures value { result ≡ is_far place.now }
{
    match place {
        Some(placement) => point_of(placement).is_none(),
        None => false,
    }
}

fn are_many(written: &Option<TokenText<'_>>) -> bool
    ensures value { result ≡ are_many written.now }
{
    match written {
        Some(digits) => bits(digits.text()).is_none(),
        None => false,
    }
}

fn have_many(elements: &[Element<'_>]) -> bool
    ensures value { result ≡ have_many elements.now }
{
    elements.iter().any(|element| are_many(&element.bits))
}

fn has_many(list: &ElementList<'_>) -> bool
    ensures value { result ≡ has_many list.now }
{
    match list {
        ElementList::Floating(elements) => have_many(elements.as_slice()),
        ElementList::Ordered(elements) => have_many(elements.as_slice()),
    }
}

fn have_many_lists(lists: &[ElementList<'_>]) -> bool
    ensures value { result ≡ list_any has_many lists.now }
{
    lists.iter().any(has_many)
}

fn has_many_max(chain: &Chain<'_>) -> bool
    ensures value { result ≡ are_many (max_bits_in chain.now.partition) }
{
    match &chain.partition {
        Some(partition) => are_many(&partition.max_bits),
        None => false,
    }
}

impl<'a> Judged for Units<'a> {
    ghost bad = { are_no_units };

    fn is_bad(&self) -> bool {
        units(self.number.text()).is_none()
    }
}

impl<'a> Judged for Component<'a> {
    ghost bad = { has_far_component };

    fn is_bad(&self) -> bool {
        is_far(&self.place)
    }
}

impl<'a> Judged for DesignPin<'a> {
    ghost bad = { has_far_pin };

    fn is_bad(&self) -> bool {
        is_far(&self.place)
    }
}

impl<'a> Judged for Chain<'a> {
    ghost bad = { has_many_bits };

    fn is_bad(&self) -> bool {
        has_many_max(self) || have_many_lists(self.lists.as_slice())
    }
}

/// The least line of the statements that are bad.
fn least_bad<T: Judged>(rows: &[Located<T>]) -> Option<u64>
    ensures value { IsLeast (FailsAt T.bad rows.now) result }
{
    let mut least = None;
    for row in rows {
        least = lesser(least, line_if(row.statement.is_bad(), row.line));
    }
    least
}

/// The line of the UNITS, where they are bad.
fn bad_units(text: &DesignText<'_>) -> Option<u64>
    ensures value { IsLeast (FailsAt are_no_units (text.now.units ∷ [])) result }
{
    line_if(text.units.statement.is_bad(), text.units.line)
}

/// The least line at which a number lies beyond its limits. Takes no memory.
pub(crate) fn bad_number(text: &DesignText<'_>) -> Option<u64>
    ensures value { IsLeast (NumberAt text.now) result }
{
    let units = bad_units(text);
    let components = least_bad(text.components.as_slice());
    let pins = least_bad(text.pins.as_slice());
    let chains = least_bad(text.chains.as_slice());
    lesser(lesser(units, components), lesser(pins, chains))
}
