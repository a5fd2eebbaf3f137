//! What the section SCANCHAINS is written from.
use base_types::Rows;
use token_forms::TokenText;

/// An element of a chain: its component, the pins at which its bits enter and leave it, and how many bits it has.
#[derive(Drop)]
pub struct ElementLayout<'a> {
    pub name: TokenText<'a>,
    pub input: TokenText<'a>,
    pub output: TokenText<'a>,
    pub bits: u32,
}

/// Where a chain starts or stops: at a design pin, or at a component and its pin.
#[derive(Drop)]
pub enum TerminalLayout<'a> {
    AtPin(TokenText<'a>),
    AtCell {
        component: TokenText<'a>,
        pin: TokenText<'a>,
    },
}

/// The partition of a chain, with its number where `MAXBITS` is written.
#[derive(Drop)]
pub struct PartitionLayout<'a> {
    pub name: TokenText<'a>,
    pub max_bits: Option<u32>,
}

/// A chain: its floating elements in their order, which may be none, and its ordered lists.
#[derive(Drop)]
pub struct ChainLayout<'a> {
    pub name: TokenText<'a>,
    pub partition: Option<PartitionLayout<'a>>,
    pub start: TerminalLayout<'a>,
    pub stop: TerminalLayout<'a>,
    pub floating: Rows<ElementLayout<'a>>,
    pub ordered: Rows<Rows<ElementLayout<'a>>>,
}
