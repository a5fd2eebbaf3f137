//! Chains whose stretches meet. Each chain's stretch, START cell and STOP cell is a span of the numbers of steps, so that
//! counts of where spans begin and end tell whether another chain's meets it: no two chains are compared.
ghost use Rattle.std.specs.Prelude.{◌≡◌, ◌^◌, ◌<◌, ◌≤◌, ◌↔◌, ℕ, length, sum_by, IsTrue, IfOk, IfSome, IfNone};
ghost use Rattle.chain_rules.specs.Stretches.{AreChainSpecs};
ghost use Rattle.chain_rules.specs.ChainFaults.{IsNotAStretch};
ghost use Rattle.chain_rules.specs.Runs.{stretch, AreRunsOf};
ghost use Rattle.chain_rules.specs.Spans.{span_at};
ghost use Rattle.chain_rules.specs.Spreading.{HoldsAnother, IsMet, IsOnPath, IsSpanOfEnd, IsSpanOfRun, IsSpread, LiesInAnother};

use crate::index::Index;
use crate::spans::{Span, Spans};
use crate::spec::{ChainSpec, EndSpec};
use crate::stretch::Run;
use base_types::NoMemory;
use std::alloc::Global;

/// The spans of the stretches, of the START cells and of the STOP cells of the chains.
#[derive(Drop)]
struct Spread {
    stretches: Spans,
    starts: Spans,
    stops: Spans,
}

/// The numbers of the steps of a stretch, none where there is no stretch.
fn span_of_run(index: &Index<'_>, run: Option<Run>) -> Span
    requires on { IfSome run (λ r. IsOnPath index.now (stretch r)) }
    requires few { sum_by (λ path. length path.steps) index.now < 2 ^ 32 }
    ensures value { IsSpanOfRun index.now run result }
{
    let Some(run) = run else {
        return Span { from: 0, to: 0 };
    };
    let before = index.before(run.path);
    Span {
        from: before + run.from,
        to: before + run.to,
    }
}

/// The number of the step of a START or STOP cell, none where it stands nowhere.
fn span_of_end(index: &Index<'_>, end: EndSpec) -> Span
    requires few { sum_by (λ path. length path.steps) index.now < 2 ^ 32 }
    ensures value { IsSpanOfEnd index.now end result }
{
    let EndSpec::Cell {
        instance,
        path,
        out: _,
    } = end
    else {
        return Span { from: 0, to: 0 };
    };
    let Some(place) = index.find(instance, path) else {
        return Span { from: 0, to: 0 };
    };
    let from = index.before(place.path) + place.place;
    Span { from, to: from + 1 }
}

/// The spans of the chains.
fn spread_of(
    alloc: Global,
    index: &Index<'_>,
    chains: &[ChainSpec],
    runs: &[Option<Run>],
) -> Result<Spread, NoMemory>
    requires chains { AreChainSpecs index.now chains.now }
    requires runs { AreRunsOf index.now chains.now runs.now }
    ensures value { IfOk result (IsSpread index.now chains.now runs.now) }
{
    let mut stretches = Vec::with_capacity(alloc, chains.len())?;
    let mut starts = Vec::with_capacity(alloc, chains.len())?;
    let mut stops = Vec::with_capacity(alloc, chains.len())?;
    for chain in 0..chains.len() {
        stretches.push(span_of_run(index, runs[chain]))?;
        starts.push(span_of_end(index, chains[chain].start))?;
        stops.push(span_of_end(index, chains[chain].stop))?;
    }
    Ok(Spread {
        stretches: Spans::of(alloc, stretches)?,
        starts: Spans::of(alloc, starts)?,
        stops: Spans::of(alloc, stops)?,
    })
}

/// Whether another chain's stretch, or a START or STOP cell, has a step in a chain's stretch.
fn holds_another(spread: &Spread, chain: usize) -> bool
    requires stretches { chain < length spread.now.stretches }
    requires some { (span_at spread.now.stretches chain).from < (span_at spread.now.stretches chain).to }
    ensures value { IsTrue result ↔ HoldsAnother spread.now chain }
{
    let stretch = spread.stretches.at(chain);
    spread.stretches.meet_another(chain)
        || spread.starts.meet(stretch)
        || spread.stops.meet(stretch)
}

/// Whether a chain's START or STOP cell has a step in a stretch.
fn lies_in_another(spread: &Spread, chain: usize) -> bool
    requires starts { chain < length spread.now.starts }
    requires stops { chain < length spread.now.stops }
    requires start { (span_at spread.now.starts chain).to ≤ (span_at spread.now.starts chain).from → (span_at spread.now.starts chain).to ≡ 0 }
    requires stop { (span_at spread.now.stops chain).to ≤ (span_at spread.now.stops chain).from → (span_at spread.now.stops chain).to ≡ 0 }
    ensures value { IsTrue result ↔ LiesInAnother spread.now chain }
{
    spread.stretches.meet(spread.starts.at(chain)) || spread.stretches.meet(spread.stops.at(chain))
}

/// Whether a chain's stretch and another chain's meet, or one holds the other's START or STOP cell.
fn is_met(spread: &Spread, chain: usize) -> bool
    requires stretches { chain < length spread.now.stretches }
    requires starts { chain < length spread.now.starts }
    requires stops { chain < length spread.now.stops }
    requires some { (span_at spread.now.stretches chain).from < (span_at spread.now.stretches chain).to }
    requires start { (span_at spread.now.starts chain).to ≤ (span_at spread.now.starts chain).from → (span_at spread.now.starts chain).to ≡ 0 }
    requires stop { (span_at spread.now.stops chain).to ≤ (span_at spread.now.stops chain).from → (span_at spread.now.stops chain).to ≡ 0 }
    ensures value { IsTrue result ↔ IsMet spread.now chain }
{
    holds_another(spread, chain) || lies_in_another(spread, chain)
}

/// The first chain that has no stretch, or whose stretch and another chain's meet, in time that grows a little faster than
/// the steps and the chains.
pub(crate) fn first_not_a_stretch(
    alloc: Global,
    index: &Index<'_>,
    chains: &[ChainSpec],
    runs: &[Option<Run>],
) -> Result<Option<usize>, NoMemory>
    requires chains { AreChainSpecs index.now chains.now }
    requires runs { AreRunsOf index.now chains.now runs.now }
    ensures found { IfOk result (λ first. IfSome first (λ c. (c < length chains.now) × IsNotAStretch index.now chains.now c × ((d : ℕ) → d < c → ¬ IsNotAStretch index.now chains.now d))) }
    ensures none { IfOk result (λ first. IfNone first ((c : ℕ) → c < length chains.now → ¬ IsNotAStretch index.now chains.now c)) }
{
    let spread = spread_of(alloc, index, chains, runs)?;
    for chain in 0..chains.len() {
        let Some(_run) = runs[chain] else {
            return Ok(Some(chain));
        };
        if is_met(&spread, chain) {
            return Ok(Some(chain));
        }
    }
    Ok(None)
}
