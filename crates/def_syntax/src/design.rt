//! The statements of a DEF text.
use crate::chain::Chain;
use crate::component::Component;
use crate::frame::SectionKind;
use crate::net::NetStatement;
use crate::pin::DesignPin;
use crate::units::Units;
use base_types::{Rows, Span};

/// A statement, its place from its first to its last token, and the line of its first token, from 1.
#[derive(Drop)]
pub struct Located<T> {
    pub statement: T,
    pub span: Span,
    pub line: u64,
}

/// A section that is read, its place from its first token to the token behind its `END`, and the line of its first token.
#[derive(Drop)]
pub struct Section {
    pub kind: SectionKind,
    pub span: Span,
    pub line: u64,
}

/// The statements of a DEF text that are read, those of all sections of a kind together, in the order of the file.
#[derive(Drop)]
pub struct DesignText<'a> {
    pub units: Located<Units<'a>>,
    pub components: Rows<Located<Component<'a>>>,
    pub pins: Rows<Located<DesignPin<'a>>>,
    pub nets: Rows<Located<NetStatement<'a>>>,
    pub chains: Rows<Located<Chain<'a>>>,
    pub sections: Rows<Section>,
}
