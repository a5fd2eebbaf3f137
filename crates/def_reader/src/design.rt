//! A placed design.
use crate::named_rows::NamedRows;
use base_types::{Name, Point, Rows, Span};
use def_tokens::Orient;

/// A component: its plain name, its name as it is written, its cell, and its line.
#[derive(Drop)]
pub struct Component {
    pub name: Name,
    pub text: Name,
    pub cell: Name,
    /// The placement point, in database units, and how it is turned; None where it isn't placed.
    pub place: Option<(Point, Orient)>,
    pub line: u64,
}

/// A design pin and its net.
#[derive(Drop)]
pub struct DesignPin {
    pub name: Name,
    pub net: Name,
    /// The place of the net's name in the text.
    pub net_span: Span,
    /// The placement point, in database units.
    pub place: Option<Point>,
    pub line: u64,
}

/// What a net connects.
#[derive(Drop)]
pub enum NetPin {
    /// A pin of a component.
    Cell { component: Name, pin: Name },
    /// A design pin.
    Port(Name),
}

/// A net, with its pins in order, and the place of its statement.
#[derive(Drop)]
pub struct Net {
    pub name: Name,
    pub pins: Rows<NetPin>,
    pub span: Span,
    pub line: u64,
}

/// An element of a scan chain. A pin that isn't written is the common scan pin, where the cell has it.
#[derive(Drop)]
pub struct Element {
    pub component: Name,
    pub input: Option<Name>,
    pub output: Option<Name>,
    /// How many bits it has, where `BITS` says so.
    pub bits: Option<u32>,
}

/// Elements whose order is free, or fixed.
#[derive(Drop)]
pub enum ElementList {
    Floating(Rows<Element>),
    Ordered(Rows<Element>),
}

/// Where a chain starts or stops.
#[derive(Drop)]
pub enum EndText {
    /// At a design pin.
    Port(Name),
    /// At a component, and its pin where one is written or the cell has the common one.
    Cell { component: Name, pin: Option<Name> },
}

/// A scan chain as it is written.
#[derive(Drop)]
pub struct ScanChainText {
    pub name: Name,
    pub partition: Option<Name>,
    /// The number of `MAXBITS`, 0 where it doesn't stand.
    pub max_bits: u32,
    /// Whether `MAXBITS` stands.
    pub has_max_bits: bool,
    pub start: EndText,
    pub stop: EndText,
    pub lists: Rows<ElementList>,
    pub line: u64,
}

/// A placed design. Its names are plain.
pub struct Design {
    /// The database units of a micron, 1 to 100000.
    pub units: i64,
    pub components: NamedRows<Component>,
    pub pins: NamedRows<DesignPin>,
    pub nets: Rows<Net>,
    pub chains: Rows<ScanChainText>,
    /// From the first token of the SCANCHAINS section to the token behind its `END`.
    pub chains_span: Option<Span>,
}

// By hand, so that it is proved here and not again wherever one is dropped.
impl Drop for Design {
    fn drop(self) {
        let Design {
            units: _units,
            components: _components,
            pins: _pins,
            nets: _nets,
            chains: _chains,
            chains_span: _chains_span,
        } = self;
    }
}
