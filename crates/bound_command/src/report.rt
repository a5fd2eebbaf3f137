//! The text of `bound`.
ghost use Rattle.std.specs.Prelude.{◌≡◌, ◌++◌, ◌∷◌, [], ◌<◌, ◌≤◌, ◌^◌, ◌*◌, length, codes, decimal, sum_by, IfOk, OnOk, option_map};
ghost use Rattle.bound_command.specs.Bounds.{bound_text, lines_from, total_line, tree_part, trees_from};

use crate::chains::ChainBound;
use crate::lines::{push_chain, push_number, push_tree};
use base_types::{NoMemory, Text};
use def_reader::ScanChainText;
use std::alloc::Global;

/// Appends the lines of each chain.
fn push_chains(
    text: &mut Vec<u8>,
    chains: &[ScanChainText],
    bounds: &[ChainBound],
) -> Result<(), NoMemory>
    requires count { length chains.now ≡ length bounds.now }
    ensures value { OnOk result (text.new.items ≡ text.old.items ++ lines_from bounds.now 0 chains.now) }
{
    for number in 0..chains.len() {
        push_chain(text, chains[number].name.bytes(), &bounds[number])?;
    }
    Ok(())
}

/// The length of all chains.
fn length_of(bounds: &[ChainBound]) -> u128
    requires few { length bounds.now ≤ 65536 }
    ensures value { result ≡ sum_by (λ b. b.length) bounds.now }
    ensures small { result < 2 ^ 100 }
{
    let mut sum: u128 = 0;
    for chain in bounds {
        sum += u128::from(chain.length);
    }
    sum
}

/// The sum of the values of all certificates.
fn bound_of(bounds: &[ChainBound]) -> u128
    requires few { length bounds.now ≤ 65536 }
    ensures value { result ≡ sum_by (λ b. b.bound) bounds.now }
{
    let mut sum: u128 = 0;
    for chain in bounds {
        sum += u128::from(chain.bound);
    }
    sum
}

/// The sum of all bounds by trees.
fn tree_of(bounds: &[ChainBound]) -> u128
    requires few { length bounds.now ≤ 65536 }
    ensures value { result ≡ sum_by (λ b. b.tree) bounds.now }
    ensures small { result < 2 ^ 100 }
{
    let mut sum: u128 = 0;
    for chain in bounds {
        sum += u128::from(chain.tree);
    }
    sum
}

/// Appends the line of all chains.
fn push_total(text: &mut Vec<u8>, bounds: &[ChainBound]) -> Result<(), NoMemory>
    requires few { length bounds.now ≤ 65536 }
    ensures value { OnOk result (text.new.items ≡ text.old.items ++ total_line bounds.now) }
{
    push_number(text, b"length ", length_of(bounds))?;
    push_number(text, b" bound ", bound_of(bounds))?;
    text.push(b'\n')?;
    Ok(())
}

/// Appends the lines of the bounds by trees, of each chain and of all.
fn push_trees(
    text: &mut Vec<u8>,
    chains: &[ScanChainText],
    bounds: &[ChainBound],
) -> Result<(), NoMemory>
    requires count { length chains.now ≡ length bounds.now }
    ensures value { OnOk result (text.new.items ≡ text.old.items ++ trees_from bounds.now 0 chains.now) }
{
    for number in 0..chains.len() {
        text.extend_from_slice(b"chain ")?;
        text.extend_from_slice(chains[number].name.bytes())?;
        text.push(b' ')?;
        let chain = &bounds[number];
        push_tree(text, u128::from(chain.length), u128::from(chain.tree))?;
    }
    Ok(())
}

/// Appends what is said of trees where rounds were asked for.
fn push_tree_part(
    text: &mut Vec<u8>,
    rounds: Option<u32>,
    chains: &[ScanChainText],
    bounds: &[ChainBound],
) -> Result<(), NoMemory>
    requires count { length chains.now ≡ length bounds.now }
    requires few { length bounds.now ≤ 65536 }
    ensures value { OnOk result (text.new.items ≡ text.old.items ++ tree_part rounds chains.now bounds.now) }
{
    if rounds.is_some() {
        push_trees(text, chains, bounds)?;
        push_tree(text, length_of(bounds), tree_of(bounds))?;
    }
    Ok(())
}

/// What `bound` says of the chains with these bounds.
pub(crate) fn report_of(
    alloc: Global,
    rounds: Option<u32>,
    chains: &[ScanChainText],
    bounds: &[ChainBound],
) -> Result<Text, NoMemory>
    requires count { length chains.now ≡ length bounds.now }
    requires few { length bounds.now ≤ 65536 }
    ensures value { IfOk result (λ text. text ≡ bound_text rounds chains.now bounds.now) }
{
    let mut text = Vec::new(alloc);
    push_chains(&mut text, chains, bounds)?;
    push_total(&mut text, bounds)?;
    push_tree_part(&mut text, rounds, chains, bounds)?;
    Ok(Text::of(text))
}
