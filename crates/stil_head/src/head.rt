//! The head of a STIL text.
ghost use Rattle.std.specs.Prelude.{◌≡◌, ◌<◌, ◌^◌, true, map, length, IfOk, OnOk};
ghost use Rattle.std.specs.List.{flat_map, list_any};
ghost use Rattle.base_types.specs.declared.fault.Fault.{Fault as ghost_fault};
ghost use Rattle.base_types.specs.FirstFault.{IfFault, IsFirstFault};
ghost use Rattle.base_types.specs.Lines.{line_at};
ghost use Rattle.base_types.specs.Faults.{at_line};
ghost use Rattle.base_types.specs.declared.fault.FileKind.TheVariants.{Stil as stil_file};
ghost use Rattle.base_types.specs.declared.fault.ReadFault.TheVariants.{Fault as refused};
ghost use Rattle.stil_types.specs.declared.head.StilHead.{StilHead as ghost_head};
ghost use Rattle.stil_parts.specs.ByTokens.{head_place};
ghost use Rattle.stil_syntax.specs.Shapes.{body_statements};
ghost use Rattle.stil_blocks.specs.Callees.{statement_keywords};
ghost use Rattle.stil_head.specs.Heads.{DenotesHead, IsHead, SaysAll, IsLeftFault};
ghost use Rattle.stil_head.specs.Faults.{HoldsInHead, HoldsInText};

use crate::ends::head_len;
use crate::syntax::syntax_place;
use crate::twice::twice_place;
use crate::unsupported::unsupported_place;
use base_types::{Fault, FileKind, Kind, Lines, NoMemory, ReadFault, Rows};
use std::alloc::Global;
use stil_blocks::{ReadCallee, ReadChain, read_callees, read_chains, read_keywords};
use stil_syntax::Stretch;
use stil_tokens::stil_tokens;
use stil_types::{Callees, Keywords, ScanChainDecl, StilHead};

/// The fault of a kind at a place.
fn fault_at(text: &[u8], kind: Kind, place: u32) -> ReadFault
    ensures value { result ≡ refused (at_line kind stil_file (line_at text.now place)) }
{
    let line = Lines::of(text).line_of(place as usize);
    ReadFault::Fault(Fault::at_line(kind, FileKind::Stil, line))
}

/// The declarations of chains.
fn decls_of(alloc: Global, chains: Rows<ReadChain>) -> Result<Rows<ScanChainDecl>, NoMemory>
    ensures value { IfOk result (λ decls. decls ≡ map (λ c. c.decl) chains) }
{
    let mut decls = Vec::new(alloc);
    for chain in chains.into_vec() {
        decls.push(chain.decl)?;
    }
    Ok(Rows::of(decls))
}

/// Procedures or macros without their places.
fn callees_in(alloc: Global, read: Rows<ReadCallee>) -> Result<Callees, NoMemory>
    ensures value { IfOk result (λ callees. callees ≡ map (λ c. c.callee) read) }
{
    let mut callees = Vec::new(alloc);
    for one in read.into_vec() {
        callees.push(one.callee)?;
    }
    Callees::of(alloc, Rows::of(callees))
}

/// The names in UserKeywords.
fn keywords_in(alloc: Global, tokens: &Stretch<'_, '_>) -> Result<Keywords, NoMemory>
    ensures value { IfOk result (λ keywords. keywords ≡ flat_map statement_keywords (body_statements tokens.now)) }
{
    let names = read_keywords(alloc, tokens)?;
    Keywords::of(alloc, names)
}

/// Whether a `!` stands in the ScanCells of one of these chains.
fn any_marks(chains: &[ReadChain]) -> bool
    ensures value { result ≡ list_any (λ c. c.marks) chains.now }
{
    chains.iter().any(|c| c.marks)
}

/// The head that has these chains, procedures and macros, where none of them is at fault.
fn head_of(
    alloc: Global,
    text: &[u8],
    tokens: &Stretch<'_, '_>,
    chains: Rows<ReadChain>,
    procedures: Rows<ReadCallee>,
    macros: Rows<ReadCallee>,
) -> Result<StilHead, ReadFault>
    requires size { length text.now < 2 ^ 32 }
    ensures value { IfOk result (SaysAll text.now chains procedures macros (body_statements tokens.now)) }
    ensures fault { IfFault result (IsLeftFault text.now chains procedures macros (body_statements tokens.now)) }
{
    let twice = twice_place(
        alloc,
        chains.as_slice(),
        procedures.as_slice(),
        macros.as_slice(),
    )?;
    if let Some(place) = twice {
        return Err(fault_at(text, Kind::StilTwice, place));
    }
    let barred = unsupported_place(
        alloc,
        chains.as_slice(),
        procedures.as_slice(),
        macros.as_slice(),
        tokens,
    )?;
    if let Some(place) = barred {
        return Err(fault_at(text, Kind::Unsupported, place));
    }
    let marks = any_marks(chains.as_slice());
    Ok(StilHead {
        chains: decls_of(alloc, chains)?,
        procedures: callees_in(alloc, procedures)?,
        macros: callees_in(alloc, macros)?,
        keywords: keywords_in(alloc, tokens)?,
        marks,
        end: text.len() as u32,
    })
}

/// The head of these bytes, which ends where they end.
fn read_text(alloc: Global, text: &[u8]) -> Result<StilHead, ReadFault>
    requires size { length text.now < 2 ^ 32 }
    ensures value { IfOk result (IsHead text.now) }
    ensures end { IfOk result (λ head. head.end ≡ length text.now) }
    ensures first { IfFault result (IsFirstFault (HoldsInText text.now)) }
    ensures no_fault { OnOk result ((fault : ghost_fault) → HoldsInText text.now fault → ⊥) }
{
    let spans = stil_tokens(alloc, text)?;
    let tokens = Stretch::of(text, spans.as_slice());
    let mut lines = Lines::of(text);
    let syntax = syntax_place(alloc, &mut lines, &tokens)?;
    if let Some(place) = syntax {
        return Err(fault_at(text, Kind::StilSyntax, place));
    }
    let mut lines = Lines::of(text);
    let chains = read_chains(alloc, &mut lines, &tokens)?;
    let procedures = read_callees(alloc, b"Procedures", &tokens)?;
    let macros = read_callees(alloc, b"MacroDefs", &tokens)?;
    head_of(alloc, text, &tokens, chains, procedures, macros)
}

/// The head of a STIL text of less than 4 GiB, or its first fault: StilSyntax, where a statement of the head matches no form, or the
/// head has no ScanStructures; then StilTwice, where a chain, a port among all ScanIn and ScanOut together, a procedure or a macro
/// has the name of one before it; then Unsupported, where the head has what this profile leaves out: each at the least line that has
/// it; or want of memory (IEEE 1450-1999, clauses 8 to 24).
pub fn read_head(alloc: Global, bytes: &[u8]) -> Result<StilHead, ReadFault>
    requires size { length bytes.now < 2 ^ 32 }
    ensures value { IfOk result (DenotesHead bytes.now) }
    // It ends, by the tokens, where the first statement begins whose word is Pattern.
    ensures ends { IfOk result (λ head. head.end ≡ head_place bytes.now) }
    ensures only { IfOk result (λ head. (other : ghost_head) → DenotesHead bytes.now other → other ≡ head) }
    ensures first { IfFault result (IsFirstFault (HoldsInHead bytes.now)) }
    ensures no_fault { OnOk result ((fault : ghost_fault) → HoldsInHead bytes.now fault → ⊥) }
{
    let end = head_len(bytes);
    read_text(alloc, &bytes[..end])
}
