//! The chains of a design beside a head.
ghost use Rattle.std.specs.Prelude.{◌≡◌, OnOk, IfErr};
ghost use Rattle.base_types.specs.declared.fault.Fault.{Fault as ghost_fault};
ghost use Rattle.base_types.specs.FirstFault.{IsFirstFault};
ghost use Rattle.std.specs.List.{list_any};
ghost use Rattle.std.specs.Str.{bytes_eq};
ghost use Rattle.list_laws.specs.Leasts.{IsLeast};
ghost use Rattle.head_chains.specs.Chains.{starts_undeclared, stops_undeclared, is_undeclared, HoldsInChains};
ghost use Rattle.head_checks.specs.Heads.{FailsOn};

use base_types::{Fault, FileKind, Kind};
use def_reader::{Design, EndText, ScanChainText};
use list_laws::{lesser, line_if};
use stil_types::{ScanChainDecl, StilHead};

fn has_input(chains: &[ScanChainDecl], name: &[u8]) -> bool
    ensures value { result ≡ list_any (λ c. bytes_eq c.scan_in name.now) chains.now }
{
    chains.iter().any(|c| c.scan_in.bytes() == name)
}

fn has_output(chains: &[ScanChainDecl], name: &[u8]) -> bool
    ensures value { result ≡ list_any (λ c. bytes_eq c.scan_out name.now) chains.now }
{
    chains.iter().any(|c| c.scan_out.bytes() == name)
}

fn starts_undeclared(chains: &[ScanChainDecl], start: &EndText) -> bool
    ensures value { result ≡ starts_undeclared chains.now start.now }
{
    match start {
        EndText::Port(name) => !has_input(chains, name.bytes()),
        EndText::Cell { .. } => false,
    }
}

fn stops_undeclared(chains: &[ScanChainDecl], stop: &EndText) -> bool
    ensures value { result ≡ stops_undeclared chains.now stop.now }
{
    match stop {
        EndText::Port(name) => !has_output(chains, name.bytes()),
        EndText::Cell { .. } => false,
    }
}

fn is_undeclared(chains: &[ScanChainDecl], chain: &ScanChainText) -> bool
    ensures value { result ≡ is_undeclared chains.now chain.now }
{
    starts_undeclared(chains, &chain.start) || stops_undeclared(chains, &chain.stop)
}

/// The least line of a chain that begins or ends at a port that none of the blocks declares.
fn least_undeclared(chains: &[ScanChainDecl], rows: &[ScanChainText]) -> Option<u64>
    ensures value { IsLeast (FailsOn (is_undeclared chains.now) (λ c. c.line) rows.now) result }
{
    let mut least = None;
    for chain in rows {
        least = lesser(least, line_if(is_undeclared(chains, chain), chain.line));
    }
    least
}

/// Whether a head declares the ports of a design's chains (LEF/DEF 5.8, SCANCHAINS): each port at START PIN is a ScanIn, and each at
/// STOP PIN a ScanOut. Else ChainUndeclared at the least line of a chain of which one isn't. Takes no memory.
pub fn check_chains(design: &Design, head: &StilHead) -> Result<(), Fault>
    ensures fault { IfErr result (IsFirstFault (HoldsInChains design.now head.now)) }
    ensures no_fault { OnOk result ((fault : ghost_fault) → HoldsInChains design.now head.now fault → ⊥) }
{
    match least_undeclared(head.chains.as_slice(), design.chains.as_slice()) {
        Some(line) => Err(Fault::at_line(Kind::ChainUndeclared, FileKind::Def, line)),
        None => Ok(()),
    }
}
