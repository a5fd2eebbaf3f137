//! Components, design pins and nets of the statements of a text.
ghost use Rattle.std.specs.Prelude.{◌≡◌, map, Some, option_map, IfOk, OnOk};
ghost use Rattle.std.specs.List.{filter_map};
ghost use Rattle.def_reader.specs.Designs.{point_of, pin_place, place_of, component_of, pin_of, net_pin_of, net_pins_of, net_of};

use crate::design::{Component, DesignPin, Net, NetPin};
use crate::names::{plain, word_at};
use crate::numbers::coordinate;
use base_types::{Name, NoMemory, Point, Rows};
use def_syntax::{
    Component as ComponentText, Connection, DesignPin as PinText, Located, NetStatement, Placement,
};
use def_tokens::Orient;
use std::alloc::Global;

/// The point of a placement, or None where a coordinate lies outside 32 bits.
pub(crate) fn point_of(placement: &Placement<'_>) -> Option<Point>
    ensures value { result ≡ point_of placement.now }
{
    let x = coordinate(placement.x.text())?;
    let y = coordinate(placement.y.text())?;
    Some(Point { x, y })
}

fn pin_place(place: &Option<Placement<'_>>) -> Option<Point>
    ensures value { result ≡ pin_place place.now }
{
    match place {
        Some(placement) => point_of(placement),
        None => None,
    }
}

fn place_of(place: &Option<Placement<'_>>) -> Option<(Point, Orient)>
    ensures value { result ≡ place_of place.now }
{
    match place {
        Some(placement) => {
            let point = point_of(placement)?;
            Some((point, placement.orient))
        }
        None => None,
    }
}

fn component_of(
    alloc: Global,
    component: &Located<ComponentText<'_>>,
) -> Result<Component, NoMemory>
    ensures value { IfOk result (λ c. c ≡ component_of component.now) }
{
    let statement = &component.statement;
    Ok(Component {
        name: plain(alloc, statement.name.text())?,
        text: Name::copy(alloc, statement.name.text())?,
        cell: plain(alloc, statement.cell.text())?,
        place: place_of(&statement.place),
        line: component.line,
    })
}

/// The components of their statements, which are let go.
pub(crate) fn components_of(
    alloc: Global,
    statements: Rows<Located<ComponentText<'_>>>,
) -> Result<Rows<Component>, NoMemory>
    ensures value { IfOk result (λ components. components ≡ map component_of statements.entry) }
{
    let mut components = Rows::with_room(alloc, statements.as_slice().len())?;
    for component in statements.as_slice() {
        components.push(component_of(alloc, component)?)?;
    }
    Ok(components)
}

fn pin_of(alloc: Global, pin: &Located<PinText<'_>>) -> Result<DesignPin, NoMemory>
    ensures value { IfOk result (λ p. p ≡ pin_of pin.now) }
{
    let statement = &pin.statement;
    Ok(DesignPin {
        name: plain(alloc, statement.name.text())?,
        net: plain(alloc, statement.net.text())?,
        net_span: statement.net_span,
        place: pin_place(&statement.place),
        line: pin.line,
    })
}

/// The design pins of their statements, which are let go.
pub(crate) fn pins_of(
    alloc: Global,
    statements: Rows<Located<PinText<'_>>>,
) -> Result<Rows<DesignPin>, NoMemory>
    ensures value { IfOk result (λ pins. pins ≡ map pin_of statements.entry) }
{
    let mut pins = Rows::with_room(alloc, statements.as_slice().len())?;
    for pin in statements.as_slice() {
        pins.push(pin_of(alloc, pin)?)?;
    }
    Ok(pins)
}

/// What the two words of a connection connect; None for the pins of all components.
fn net_pin_of(alloc: Global, component: &[u8], pin: &[u8]) -> Result<Option<NetPin>, NoMemory>
    ensures value { IfOk result (λ p. p ≡ net_pin_of component.now pin.now) }
{
    if component == b"*".as_slice() {
        return Ok(None);
    }
    if component == b"PIN".as_slice() {
        return Ok(Some(NetPin::Port(plain(alloc, pin)?)));
    }
    let component = plain(alloc, component)?;
    let pin = plain(alloc, pin)?;
    Ok(Some(NetPin::Cell { component, pin }))
}

fn net_pins_of(
    alloc: Global,
    text: &[u8],
    connections: &[Connection],
) -> Result<Rows<NetPin>, NoMemory>
    ensures value { IfOk result (λ pins. pins ≡ net_pins_of text.now connections.now) }
{
    let mut pins = Rows::with_room(alloc, connections.len())?;
    for connection in connections {
        let component = word_at(text, connection.component);
        let pin = word_at(text, connection.pin);
        if let Some(pin) = net_pin_of(alloc, component, pin)? {
            pins.push(pin)?;
        }
    }
    Ok(pins)
}

/// The net of a statement; None for MUSTJOIN.
fn net_of(
    alloc: Global,
    text: &[u8],
    net: &Located<NetStatement<'_>>,
) -> Result<Option<Net>, NoMemory>
    ensures value { IfOk result (λ n. n ≡ net_of text.now net.now) }
{
    match &net.statement {
        NetStatement::Net(statement) => Ok(Some(Net {
            name: plain(alloc, statement.name.text())?,
            pins: net_pins_of(alloc, text, statement.connections.as_slice())?,
            span: net.span,
            line: net.line,
        })),
        NetStatement::MustJoin => Ok(None),
    }
}

fn nets_in(
    alloc: Global,
    text: &[u8],
    statements: &[Located<NetStatement<'_>>],
) -> Result<Rows<Net>, NoMemory>
    ensures value { IfOk result (λ nets. nets ≡ filter_map (net_of text.now) statements.now) }
{
    let mut nets = Rows::with_room(alloc, statements.len())?;
    for statement in statements {
        if let Some(net) = net_of(alloc, text, statement)? {
            nets.push(net)?;
        }
    }
    Ok(nets)
}

/// The nets of their statements, which are let go.
pub(crate) fn nets_of(
    alloc: Global,
    text: &[u8],
    statements: Rows<Located<NetStatement<'_>>>,
) -> Result<Rows<Net>, NoMemory>
    ensures value { IfOk result (λ nets. nets ≡ filter_map (net_of text.now) statements.entry) }
{
    nets_in(alloc, text, statements.as_slice())
}
