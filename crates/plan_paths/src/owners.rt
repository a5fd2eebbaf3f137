//! In which chain each place of each read path lies.
ghost use Rattle.std.specs.Prelude.{◌≡◌, ℕ, [], ◌∷◌, ◌++◌, List, length, IfOk};
ghost use Rattle.chain_rules.specs.declared.unit.ChainRule.{ChainRule as of_chain};
ghost use Rattle.chain_trace.specs.declared.path.Path.{Path as of_path};
ghost use Rattle.plan_paths.specs.Owners.{owners, IsRowMarked, AreOwners};

use base_types::NoMemory;
use chain_rules::ChainRule;
use chain_trace::Path;
use std::alloc::Global;

/// Marks the places of a chain on its path, but those that an earlier one has.
fn mark(row: &mut [Option<usize>], chain: usize, first: usize, end: usize)
    ensures value { IsRowMarked chain first end row.old row.new }
{
    for place in first..end.min(row.len()) {
        if row[place].is_none() {
            row[place] = Some(chain);
        }
    }
}

/// Marks the places of the chain of a number.
fn mark_chain(rows: &mut Vec<Vec<Option<usize>>>, chain: usize, rule: &ChainRule)
    ensures value { (paths : List of_path) (rules : List of_chain) → length rules ≡ chain → AreOwners paths rules rows.old.items → AreOwners paths (rules ++ rule.now ∷ []) rows.new.items }
{
    let path = rule.path as usize;
    if path < rows.len() {
        let end = rule.last as usize + 1;
        mark(rows[path].as_mut_slice(), chain, rule.first as usize, end);
    }
}

/// A row of so many places, none marked.
fn unmarked_row(alloc: Global, count: usize) -> Result<Vec<Option<usize>>, NoMemory>
    ensures value { IfOk result (λ row. (path : ℕ) → row.items ≡ owners [] path count) }
{
    let mut row = Vec::with_capacity(alloc, count)?;
    for _ in 0..count {
        row.push(None)?;
    }
    Ok(row)
}

/// A row for each path, with no place marked.
fn unmarked(alloc: Global, paths: &[Path]) -> Result<Vec<Vec<Option<usize>>>, NoMemory>
    ensures value { IfOk result (λ rows. AreOwners paths.now [] rows.items) }
{
    let mut rows = Vec::with_capacity(alloc, paths.len())?;
    for path in paths {
        rows.push(unmarked_row(alloc, path.steps.as_slice().len())?)?;
    }
    Ok(rows)
}

/// Of each place of each path the number of the first chain in which it lies, if it lies in one: a row for each path, in time of the
/// order of the steps and of those of the chains; or want of memory.
pub(crate) fn owners_of(
    alloc: Global,
    paths: &[Path],
    chains: &[ChainRule],
) -> Result<Vec<Vec<Option<usize>>>, NoMemory>
    ensures value { IfOk result (λ rows. AreOwners paths.now chains.now rows.items) }
{
    let mut rows = unmarked(alloc, paths)?;
    for (chain, rule) in chains.iter().enumerate() {
        mark_chain(&mut rows, chain, rule);
    }
    Ok(rows)
}
