//! What limits the longest path of a plan, in words for a user. No clause speaks of these.

use base_types::NoMemory;
use chain_rules::{Plan, Rules};
use def_reader::ScanChainText;
use design_files::DesignFiles;
use std::alloc::Global;

/// How many full chains are told by name.
const NAMED: usize = 4;

/// Whether a path is of a set.
fn is_in(set: &[bool], path: u32) -> bool {
    match set.get(path as usize) {
        Some(is) => *is,
        None => false,
    }
}

/// The partitions of the chains on paths of a set that have two units or more, in rising order.
fn giving_partitions(
    alloc: Global,
    rules: &Rules,
    plan: &Plan,
    set: &[bool],
) -> Result<Vec<u32>, NoMemory> {
    let mut partitions = Vec::new(alloc);
    for (rule, units) in rules.chains.as_slice().iter().zip(plan.lists()) {
        if is_in(set, rule.path) && units.len() > 1 {
            partitions.push(rule.partition)?;
        }
    }
    partitions.sort_unstable();
    Ok(partitions)
}

/// A full chain as a user reads it: its name and what it may hold.
fn full_chain(alloc: Global, chain: &ScanChainText, bound: u32) -> Result<String, NoMemory> {
    let name = String::from_utf8_lossy(alloc, chain.name.bytes())?;
    if chain.max_bits > 0 {
        return Ok(format!(in alloc; " {name} (MAXBITS {bound})")?);
    }
    Ok(format!(in alloc; " {name} ({bound} bits as read, no MAXBITS above 0)")?)
}

/// The chains on other paths that could take a unit of the paths of a set if they weren't full, the first ones by name; an empty text where
/// there is none.
fn full_chains(
    alloc: Global,
    files: &DesignFiles,
    plan: &Plan,
    set: &[bool],
) -> Result<String, NoMemory> {
    let partitions = giving_partitions(alloc, &files.rules, plan, set)?;
    let rules = files.rules.chains.as_slice();
    let mut told = String::new(alloc);
    let mut count = 0usize;
    for (rule, chain) in rules.iter().zip(files.design.chains.as_slice()) {
        if !is_in(set, rule.path) && partitions.binary_search(&rule.partition).is_ok() {
            count = count.saturating_add(1);
            if count <= NAMED {
                told.push_str(full_chain(alloc, chain, rule.bound)?.as_str())?;
            }
        }
    }
    if count > NAMED {
        let more = count - NAMED;
        told.push_str(format!(in alloc; " and {more} more")?.as_str())?;
    }
    Ok(told)
}

/// What limits the longest path of a plan, by a cut that shows that no plan has a shorter one; or, where there is no cut, that units of several
/// bits or of none are why. None where there is no path.
pub(crate) fn limit_note(
    alloc: Global,
    files: &DesignFiles,
    plan: &Plan,
    cut: &Option<Vec<bool>>,
) -> Result<Option<String>, NoMemory> {
    if files.paths.is_empty() {
        return Ok(None);
    }
    let Some(set) = cut else {
        let note =
            "note: not every unit has one bit, so a plan with a shorter longest path isn't ruled out";
        return Ok(Some(String::from_str(alloc, note)?));
    };
    let full = full_chains(alloc, files, plan, set.as_slice())?;
    if !full.is_empty() {
        let full = full.as_str();
        return Ok(Some(format!(in alloc;
            "note: the longest path can't be shorter, since these chains are full:{full}"
        )?));
    }
    let note =
        "note: the longest path can't be shorter, since no path to which its units can go is shorter by more than a bit";
    Ok(Some(String::from_str(alloc, note)?))
}
