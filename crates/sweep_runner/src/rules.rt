//! The rules that are read off paths and chains, by hand.
//!
//! A row of `rules.toml` has `paths` by the letters of their cells, whether their outputs are `free`, and the statements of
//! `chains`. A small letter has one bit, and a capital none, as a buffer. A statement is pairs of words as `MAXBITS=7`:
//! PORTS with the path between whose ports it stands (0 without it), before START and STOP with a cell and the digit of its
//! out pin; OUT with the out pin of the elements behind it (0 without it) or `-`; FLOATING and ORDERED with elements;
//! MAXBITS, PARTITION, and LINE (32 without it).
//!
//! As `wanted` comes what is read off them: of each unit the path, the first and last step and the bits, with a mark where
//! it is pinned; of each chain the path, the first and last step, the partition and the bound, with a mark where it keeps a
//! bit; the read plan. Or the first fault.

use crate::rows::{list, text, text_of, truth};
use base_types::{Fault, NoMemory, ReadFault, Rows};
use chain_rules::{
    ChainRule, ChainSpec, ElementSpec, EndSpec, ListSpec, PathSpec, Plan, Rules, StepSpec, Unit,
    are_chains, units_of,
};
use row_forms::{Cases, Part, put};
use std::alloc::Global;
use std::fmt::Write;
use toml::Value;

/// Puts the steps that the letters of a text are behind others.
fn put_steps(steps: &mut Rows<StepSpec>, letters: &str) -> Result<(), NoMemory> {
    for letter in letters.bytes() {
        steps.push(StepSpec {
            instance: u32::from(letter),
            path: 0,
            out: 0,
            bits: u32::from(letter.is_ascii_lowercase()),
        })?;
    }
    Ok(())
}

/// Puts the path of a text behind others. The nets of its ports have its number, and 100 more.
fn put_path(
    alloc: Global,
    paths: &mut Vec<PathSpec>,
    letters: &str,
    free_out: bool,
) -> Result<(), NoMemory> {
    let input = u32::try_from(paths.len()).unwrap_or(0);
    let mut path = PathSpec {
        input,
        output: input.wrapping_add(100),
        free_out,
        steps: Rows::new(alloc),
    };
    put_steps(&mut path.steps, letters)?;
    paths.push(path)?;
    Ok(())
}

fn put_paths(alloc: Global, paths: &mut Vec<PathSpec>, given: &Value) -> Result<(), NoMemory> {
    for letters in list(given, "paths") {
        put_path(alloc, paths, text_of(letters), truth(given, "free"))?;
    }
    Ok(())
}

/// Puts the elements that the letters of a word are behind others.
fn put_elements(
    elements: &mut Rows<ElementSpec>,
    letters: &str,
    out: Option<u32>,
) -> Result<(), NoMemory> {
    for letter in letters.bytes() {
        elements.push(ElementSpec {
            instance: u32::from(letter),
            path: 0,
            out,
        })?;
    }
    Ok(())
}

/// Puts the list of a word into a statement.
fn put_list(
    alloc: Global,
    chain: &mut ChainSpec,
    ordered: bool,
    letters: &str,
    out: Option<u32>,
) -> Result<(), NoMemory> {
    let mut elements = Rows::new(alloc);
    put_elements(&mut elements, letters, out)?;
    chain.lists.push(if ordered {
        ListSpec::Ordered(elements)
    } else {
        ListSpec::Floating(elements)
    })
}

/// A cell with the out pin that a digit behind its letter names.
fn cell_of(word: &str) -> EndSpec {
    let mut bytes = word.bytes();
    let instance = u32::from(bytes.next().unwrap_or(0));
    let out = match bytes.next() {
        Some(digit) => Some(u32::from(digit & 15)),
        None => None,
    };
    EndSpec::Cell {
        instance,
        path: 0,
        out,
    }
}

/// Sets what a number says of a statement, whose elements behind it are left by `out`.
fn set_number(chain: &mut ChainSpec, out: &mut Option<u32>, key: &str, word: &str) {
    let number = word.parse().ok();
    let some = number.unwrap_or(0);
    match key {
        "PORTS" => {
            chain.start = EndSpec::Port(some);
            chain.stop = EndSpec::Port(some.wrapping_add(100));
        }
        "OUT" => *out = number,
        "MAXBITS" => chain.max_bits = some,
        "PARTITION" => chain.partition = some,
        "LINE" => chain.line = u64::from(some),
        _ => {}
    }
}

/// Puts a pair of words into a statement, whose elements behind it are left by `out`.
fn put_pair(
    alloc: Global,
    chain: &mut ChainSpec,
    out: &mut Option<u32>,
    key: &str,
    word: &str,
) -> Result<(), NoMemory> {
    match key {
        "START" => chain.start = cell_of(word),
        "STOP" => chain.stop = cell_of(word),
        "ORDERED" => return put_list(alloc, chain, true, word, *out),
        "FLOATING" => return put_list(alloc, chain, false, word, *out),
        _ => set_number(chain, out, key, word),
    }
    Ok(())
}

/// Puts the pairs of a statement into a chain without any.
fn put_pairs(alloc: Global, chain: &mut ChainSpec, statement: &str) -> Result<(), NoMemory> {
    let mut out = Some(0);
    for pair in statement.split(' ') {
        if let Some((key, word)) = pair.split_once('=') {
            put_pair(alloc, chain, &mut out, key, word)?;
        }
    }
    Ok(())
}

/// A statement without lists, between the ports of the first path.
fn no_lists(alloc: Global) -> ChainSpec {
    ChainSpec {
        start: EndSpec::Port(0),
        stop: EndSpec::Port(100),
        lists: Rows::new(alloc),
        partition: 0,
        max_bits: 0,
        line: 32,
    }
}

/// Puts the chain of a statement behind others.
fn put_chain(alloc: Global, chains: &mut Vec<ChainSpec>, statement: &str) -> Result<(), NoMemory> {
    let mut chain = no_lists(alloc);
    put_pairs(alloc, &mut chain, statement)?;
    chains.push(chain)?;
    Ok(())
}

/// Puts the paths and the chains that are given behind others.
fn put_given(
    alloc: Global,
    paths: &mut Vec<PathSpec>,
    chains: &mut Vec<ChainSpec>,
    given: &Value,
) -> Result<(), NoMemory> {
    put_paths(alloc, paths, given)?;
    for statement in list(given, "chains") {
        put_chain(alloc, chains, text_of(statement))?;
    }
    Ok(())
}

/// The rules of chains, or None where they don't belong to the paths.
fn rules_between(
    alloc: Global,
    paths: &[PathSpec],
    chains: &[ChainSpec],
) -> Result<Option<Rules>, ReadFault> {
    if !are_chains(alloc, paths, chains)? {
        return Ok(None);
    }
    Ok(Some(units_of(alloc, paths, chains)?))
}

/// The rules of what a row has or names as given, or None where the chains don't belong to the paths.
pub(crate) fn rules_of(alloc: Global, given: &Value) -> Result<Option<Rules>, ReadFault> {
    let mut paths = Vec::new(alloc);
    let mut chains = Vec::new(alloc);
    put_given(alloc, &mut paths, &mut chains, given)?;
    rules_between(alloc, paths.as_slice(), chains.as_slice())
}

fn put_unit(came: &mut String, unit: &Unit) -> Result<(), NoMemory> {
    let mark = if unit.pinned { "! " } else { " " };
    put(
        came,
        &[
            Part::Number(u64::from(unit.path)),
            Part::Text(":"),
            Part::Number(u64::from(unit.first)),
            Part::Text("-"),
            Part::Number(u64::from(unit.last)),
            Part::Text("="),
            Part::Number(u64::from(unit.bits)),
            Part::Text(mark),
        ],
    )
}

fn put_rule(came: &mut String, chain: &ChainRule) -> Result<(), NoMemory> {
    let mark = if chain.keeps_bit { "+ " } else { " " };
    put(
        came,
        &[
            Part::Number(u64::from(chain.path)),
            Part::Text(":"),
            Part::Number(u64::from(chain.first)),
            Part::Text("-"),
            Part::Number(u64::from(chain.last)),
            Part::Text("@"),
            Part::Number(u64::from(chain.partition)),
            Part::Text("<="),
            Part::Number(u64::from(chain.bound)),
            Part::Text(mark),
        ],
    )
}

/// Puts a plan behind a text.
pub(crate) fn put_plan(came: &mut String, plan: &Plan) -> Result<(), NoMemory> {
    write!(came, "{:?}", plan.lists())?;
    Ok(())
}

fn put_rules(came: &mut String, rules: &Rules) -> Result<(), NoMemory> {
    for unit in rules.units.as_slice() {
        put_unit(came, unit)?;
    }
    for chain in rules.chains.as_slice() {
        put_rule(came, chain)?;
    }
    put_plan(came, &rules.read)
}

fn put_fault(came: &mut String, fault: &Fault) -> Result<(), NoMemory> {
    write!(came, "{:?} {:?} {:?}", fault.file, fault.spot, fault.kind)?;
    Ok(())
}

/// Puts what is read off paths and chains behind a text, as a row has it, or how many units there are.
fn put_read(
    came: &mut String,
    rules: &Result<Option<Rules>, ReadFault>,
    whole: bool,
) -> Result<(), NoMemory> {
    match rules {
        Ok(Some(rules)) if whole => put_rules(came, rules),
        Ok(Some(rules)) => {
            let units = rules.units.as_slice().len();
            put(came, &[Part::Number(units as u64), Part::Text(" units")])
        }
        Ok(None) => put(came, &[Part::Text("no chains of the paths")]),
        Err(ReadFault::Fault(fault)) => put_fault(came, fault),
        Err(ReadFault::NoMemory) => Err(NoMemory),
    }
}

pub(crate) fn try_row(cases: &mut Cases, row: &Value) -> Result<(), NoMemory> {
    let rules = rules_of(cases.alloc, row);
    let mut came = String::new(cases.alloc);
    put_read(&mut came, &rules, true)?;
    cases.compare(text(row, "name"), came.as_str(), text(row, "wanted"))
}

/// Puts a path and a chain of so many flops behind others.
fn put_long(
    alloc: Global,
    paths: &mut Vec<PathSpec>,
    chains: &mut Vec<ChainSpec>,
    flops: u32,
) -> Result<(), NoMemory> {
    let mut steps = Rows::new(alloc);
    let mut elements = Rows::new(alloc);
    for instance in 1000..flops.saturating_add(1000) {
        steps.push(StepSpec {
            instance,
            path: 0,
            out: 0,
            bits: 1,
        })?;
        elements.push(ElementSpec {
            instance,
            path: 0,
            out: Some(0),
        })?;
    }
    paths.push(PathSpec {
        input: 0,
        output: 100,
        free_out: true,
        steps,
    })?;
    let mut long = no_lists(alloc);
    long.lists.push(ListSpec::Floating(elements))?;
    chains.push(long)?;
    Ok(())
}

/// The rules of so many flops in one chain beside a chain of one flop, of this statement.
fn most_rules(alloc: Global, flops: u32, statement: &str) -> Result<Option<Rules>, ReadFault> {
    let mut paths = Vec::new(alloc);
    let mut chains = Vec::new(alloc);
    put_long(alloc, &mut paths, &mut chains, flops)?;
    put_path(alloc, &mut paths, "a", true)?;
    put_chain(alloc, &mut chains, statement)?;
    rules_between(alloc, paths.as_slice(), chains.as_slice())
}

/// How many units a partition may have.
pub(crate) fn try_most_units(cases: &mut Cases) -> Result<(), NoMemory> {
    let apart = "PORTS=1 LINE=33 FLOATING=a PARTITION=1";
    let beside = "PORTS=1 LINE=33 FLOATING=a PARTITION=0";
    for (flops, statement, wanted) in [
        (16384, apart, "16385 units"),
        (16385, apart, "Def Line(32) TooManyUnits"),
        (16384, beside, "Def Line(33) TooManyUnits"),
    ] {
        let rules = most_rules(cases.alloc, flops, statement);
        let mut came = String::new(cases.alloc);
        put_read(&mut came, &rules, false)?;
        cases.compare("units of a partition", came.as_str(), wanted)?;
    }
    Ok(())
}
