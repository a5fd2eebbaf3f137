//! Chains as they are to be written.
use base_types::Rows;
use token_forms::TokenText;

/// An element: a scan path of a component, by the pins at which its bits enter and leave it, and how many bits it has. Names are plain.
#[derive(Drop)]
pub struct NewElement<'a> {
    pub component: TokenText<'a>,
    pub input: TokenText<'a>,
    pub output: TokenText<'a>,
    pub bits: u32,
}

/// A chain: the pins at which it starts and stops, where these are at cells, its floating elements in their order, which may be none, and its
/// ordered lists. Names are plain.
#[derive(Drop)]
pub struct NewChain<'a> {
    pub start: TokenText<'a>,
    pub stop: TokenText<'a>,
    pub floating: Rows<NewElement<'a>>,
    pub ordered: Rows<Rows<NewElement<'a>>>,
}
