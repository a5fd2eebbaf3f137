//! ScanChain blocks, and those of ScanStructures.
ghost use Rattle.std.specs.Prelude.{◌≡◌, [], ◌++◌, OnOk, IfOk};
ghost use Rattle.std.specs.List.{flat_map};
ghost use Rattle.base_types.specs.Names.{plain_name};
ghost use Rattle.stil_syntax.specs.Shapes.{body_statements};
ghost use Rattle.stil_blocks.specs.declared.clause.Clause.TheVariants.{Length, In, Out, Inversion, Cells};
ghost use Rattle.stil_blocks.specs.Chains.{no_parts, put_clause, value_of, place_in, cell_names, has_marks, parts_of, whole_chain, block_chain, chain_at, chain_in, structure_chains};

use crate::block::{behind_word, has_word, is_whole, opens, start_of};
use crate::cells::CellList;
use crate::clause::{Clause, clause_of};
use base_types::{Lines, Name, NoMemory, Rows, Span};
use std::alloc::Global;
use stil_syntax::{NameText, Stretch, body_statement, in_block};
use stil_types::ScanChainDecl;

/// What the statements of a ScanChain say.
#[derive(Drop)]
pub struct ChainParts {
    pub length: Option<(u32, Span)>,
    pub scan_in: Option<Name>,
    pub scan_out: Option<Name>,
    pub inversion: Option<(bool, Span)>,
    pub cells: Option<(CellList, Span)>,
    pub out_length: bool,
}

/// A chain that is declared.
#[derive(Drop)]
pub struct ReadChain {
    /// Where its statement begins.
    pub place: u32,
    /// What it declares.
    pub decl: ScanChainDecl,
    /// Whether a `!` stands in its ScanCells.
    pub marks: bool,
    /// Whether it has a ScanOutLength.
    pub out_length: bool,
}

impl ChainParts {
    /// Nothing is said; takes no memory.
    fn new() -> ChainParts
        ensures value { result ≡ no_parts }
    {
        ChainParts {
            length: None,
            scan_in: None,
            scan_out: None,
            inversion: None,
            cells: None,
            out_length: false,
        }
    }

    /// With ScanLength, where it wasn't said.
    fn with_length(mut self, number: u32, at: Span) -> Option<ChainParts>
        ensures value { result ≡ put_clause self (Length number at) }
    {
        if self.length.is_some() {
            return None;
        }
        self.length = Some((number, at));
        Some(self)
    }

    /// With ScanIn, where it wasn't said.
    fn with_in(mut self, port: Name) -> Option<ChainParts>
        ensures value { result ≡ put_clause self (In port) }
    {
        if self.scan_in.is_some() {
            return None;
        }
        self.scan_in = Some(port);
        Some(self)
    }

    /// With ScanOut, where it wasn't said.
    fn with_out(mut self, port: Name) -> Option<ChainParts>
        ensures value { result ≡ put_clause self (Out port) }
    {
        if self.scan_out.is_some() {
            return None;
        }
        self.scan_out = Some(port);
        Some(self)
    }

    /// With ScanInversion, where it wasn't said.
    fn with_inversion(mut self, bit: bool, at: Span) -> Option<ChainParts>
        ensures value { result ≡ put_clause self (Inversion bit at) }
    {
        if self.inversion.is_some() {
            return None;
        }
        self.inversion = Some((bit, at));
        Some(self)
    }

    /// With ScanCells, where it wasn't said.
    fn with_cells(mut self, list: CellList, at: Span) -> Option<ChainParts>
        ensures value { result ≡ put_clause self (Cells list at) }
    {
        if self.cells.is_some() {
            return None;
        }
        self.cells = Some((list, at));
        Some(self)
    }

    /// Adds what a statement says; None where it says what was said, or is not of its form.
    fn put(mut self, clause: Clause) -> Option<ChainParts>
        ensures value { result ≡ put_clause self clause }
    {
        match clause {
            Clause::Length(number, at) => self.with_length(number, at),
            Clause::In(port) => self.with_in(port),
            Clause::Out(port) => self.with_out(port),
            Clause::Inversion(bit, at) => self.with_inversion(bit, at),
            Clause::Cells(list, at) => self.with_cells(list, at),
            Clause::OutLength => {
                self.out_length = true;
                Some(self)
            }
            Clause::Passed => Some(self),
            Clause::NoForm => None,
        }
    }
}

/// What the statements of a block say, if they are of their forms.
#[tactic(auto, unfolding(crate::specs::Chains::parts_of))]
fn parts_of(alloc: Global, block: &Stretch<'_, '_>) -> Result<Option<ChainParts>, NoMemory>
    ensures value { IfOk result (λ parts. parts ≡ parts_of (body_statements block.now)) }
{
    let mut rest = block.again();
    let mut parts = ChainParts::new();
    while let Some(statement) = body_statement(&mut rest) {
        let clause = clause_of(alloc, &statement)?;
        match parts.put(clause) {
            Some(more) => parts = more,
            None => return Ok(None),
        }
    }
    Ok(Some(parts))
}

/// An inversion and its place apart.
fn inversion_parts(inversion: Option<(bool, Span)>) -> (Option<bool>, Option<Span>)
    ensures value { result ≡ (value_of inversion, place_in inversion) }
{
    match inversion {
        Some((bit, at)) => (Some(bit), Some(at)),
        None => (None, None),
    }
}

/// Names, their place, and whether a `!` stands among them, apart.
fn cell_parts(cells: Option<(CellList, Span)>) -> (Option<Rows<Name>>, Option<Span>, bool)
    ensures value { result ≡ (cell_names cells, place_in cells, has_marks cells) }
{
    match cells {
        Some((list, at)) => (Some(list.names), Some(at), list.marks),
        None => (None, None, false),
    }
}

/// The chain of a name, by what its block says.
fn whole_chain(name: Name, place: u32, line: u64, parts: ChainParts) -> Option<ReadChain>
    ensures value { result ≡ whole_chain name place line parts }
{
    let ChainParts {
        length,
        scan_in,
        scan_out,
        inversion,
        cells,
        out_length,
    } = parts;
    let (length, length_at) = length?;
    let scan_in = scan_in?;
    let scan_out = scan_out?;
    let (inversion, inversion_at) = inversion_parts(inversion);
    let (cells, cells_at, marks) = cell_parts(cells);
    let decl = ScanChainDecl {
        name,
        length,
        scan_in,
        scan_out,
        inversion,
        cells,
        length_at,
        inversion_at,
        cells_at,
        line,
    };
    Some(ReadChain {
        place,
        decl,
        marks,
        out_length,
    })
}

/// The chain that a ScanChain statement declares, if it is of its form.
#[tactic(auto, unfolding(crate::specs::Chains::chain_at))]
pub fn chain_at(
    alloc: Global,
    lines: &mut Lines<'_>,
    s: &Stretch<'_, '_>,
) -> Result<Option<ReadChain>, NoMemory>
    ensures value { IfOk result (λ chain. chain ≡ chain_at lines.old s.now) }
    ensures same { lines.new ≡ lines.old }
{
    if !is_whole(s) {
        return Ok(None);
    }
    let mut rest = behind_word(s);
    match rest.name() {
        Some(name) if opens(&rest) => named_chain(alloc, lines, &name, s),
        _ => Ok(None),
    }
}

/// The chain of this name, without its backslashes, in a statement.
fn named_chain(
    alloc: Global,
    lines: &mut Lines<'_>,
    name: &NameText<'_>,
    s: &Stretch<'_, '_>,
) -> Result<Option<ReadChain>, NoMemory>
    ensures value { IfOk result (λ chain. chain ≡ block_chain lines.old (plain_name name.now) s.now) }
    ensures same { lines.new ≡ lines.old }
{
    let Some(parts) = parts_of(alloc, &in_block(s))? else {
        return Ok(None);
    };
    let place = start_of(s);
    let line = lines.line_of(place as usize);
    Ok(whole_chain(name.to_plain_name(alloc)?, place, line, parts))
}

/// Adds the chain of a statement in ScanStructures, if it is one.
#[tactic(auto, unfolding(crate::specs::Chains::chain_in))]
fn add_chain(
    alloc: Global,
    lines: &mut Lines<'_>,
    s: &Stretch<'_, '_>,
    chains: &mut Rows<ReadChain>,
) -> Result<(), NoMemory>
    ensures value { OnOk result (chains.new ≡ chains.old ++ chain_in lines.old s.now) }
    ensures same { lines.new ≡ lines.old }
{
    if !has_word(s, b"ScanChain") {
        return Ok(());
    }
    match chain_at(alloc, lines, s)? {
        Some(chain) => {
            chains.push(chain)?;
            Ok(())
        }
        None => Ok(()),
    }
}

/// Adds the chains of a block.
fn add_chains(
    alloc: Global,
    lines: &mut Lines<'_>,
    block: &Stretch<'_, '_>,
    chains: &mut Rows<ReadChain>,
) -> Result<(), NoMemory>
    ensures value { OnOk result (chains.new ≡ chains.old ++ flat_map (chain_in lines.old) (body_statements block.now)) }
    ensures same { lines.new ≡ lines.old }
{
    let mut rest = block.again();
    while let Some(s) = body_statement(&mut rest) {
        add_chain(alloc, lines, &s, chains)?;
    }
    Ok(())
}

/// Adds the chains of a statement of the head.
#[tactic(auto, unfolding(crate::specs::Chains::structure_chains))]
fn add_structure(
    alloc: Global,
    lines: &mut Lines<'_>,
    s: &Stretch<'_, '_>,
    chains: &mut Rows<ReadChain>,
) -> Result<(), NoMemory>
    ensures value { OnOk result (chains.new ≡ chains.old ++ structure_chains lines.old s.now) }
    ensures same { lines.new ≡ lines.old }
{
    if !has_word(s, b"ScanStructures") {
        return Ok(());
    }
    add_chains(alloc, lines, &in_block(s), chains)
}

/// The chains of a head, in order.
pub fn read_chains(
    alloc: Global,
    lines: &mut Lines<'_>,
    tokens: &Stretch<'_, '_>,
) -> Result<Rows<ReadChain>, NoMemory>
    ensures value { IfOk result (λ chains. chains ≡ flat_map (structure_chains lines.old) (body_statements tokens.now)) }
{
    let mut rest = tokens.again();
    let mut chains = Rows::new(alloc);
    while let Some(s) = body_statement(&mut rest) {
        add_structure(alloc, lines, &s, &mut chains)?;
    }
    Ok(chains)
}
