//! Tries the crates of planning and of patterns on worked cases and on many made ones, and prints for each subject how many
//! cases there were and those that are answered otherwise than they say.
//!
//! The worked cases are rows of the subjects' files, of which `rows.rt` says the form. The subject `wrong` holds a case for
//! each way in which a comparison can fail; each of them must be printed.
//!
//! Floor: tests, on row_forms, lane_kernels, chain_rules, wire_cost, order_search, partition_moves, plan_search,
//! stil_types, stil_tester, retarget, design_maker, base_types, `anyhow` and `toml`.
#![tactic(auto)]

mod calls;
mod designs;
mod kernels;
mod orders;
mod pairs;
mod playing;
mod rows;
mod rules;
mod steps;
mod strings;
mod sweep;

use anyhow::{Context, Result, bail};
use base_types::NoMemory;
use row_forms::{Cases, print_cases};
use std::alloc::Global;
use std::fs;
use toml::{Table, Value};

/// What is tried.
#[derive(Clone, Copy)]
enum Subject {
    Kernels,
    Rules,
    Steps,
    Orders,
    Calls,
    Playing,
    Designs,
    Sweep,
}

/// The subjects with their names and their files, in the order in which they are tried.
const SUBJECTS: [(Subject, &str, &str); 8] = [
    (Subject::Kernels, "kernels", "kernels.toml"),
    (Subject::Rules, "rules", "rules.toml"),
    (Subject::Steps, "steps", "steps.toml"),
    (Subject::Orders, "orders", "orders.toml"),
    (Subject::Calls, "calls", "calls.toml"),
    (Subject::Playing, "playing", "playing.toml"),
    (Subject::Designs, "designs", "designs.toml"),
    (Subject::Sweep, "sweep", "sweep.toml"),
];

/// The subjects that have wrong rows, with their files, in the order in which these are tried.
const WRONG: [(Subject, &str); 8] = [
    (Subject::Kernels, "kernels.toml"),
    (Subject::Orders, "orders.toml"),
    (Subject::Calls, "calls.toml"),
    (Subject::Playing, "playing.toml"),
    (Subject::Sweep, "sweep.toml"),
    (Subject::Designs, "designs.toml"),
    (Subject::Rules, "rules.toml"),
    (Subject::Steps, "steps.toml"),
];

/// The table that a file of rows holds.
fn read_file(rt: &HostRuntime, file: &str) -> Result<Table> {
    let text = fs::read(rt, file).context("a file of rows can't be read")?;
    match toml::table_from_slice(rt.alloc(), &text) {
        Ok(table) => Ok(table),
        Err(error) => bail!("{file}: {error}"),
    }
}

/// Tries a row of a subject.
fn try_row(cases: &mut Cases, subject: Subject, file: &Table, row: &Value) -> Result<(), NoMemory> {
    match subject {
        Subject::Kernels => kernels::try_row(cases, row),
        Subject::Rules => rules::try_row(cases, row),
        Subject::Steps => steps::try_row(cases, file, row),
        Subject::Orders => orders::try_row(cases, row),
        Subject::Calls => calls::try_row(cases, row),
        Subject::Playing => playing::try_row(cases, row),
        Subject::Designs => designs::try_row(cases, row),
        Subject::Sweep => sweep::try_row(cases, row),
    }
}

/// Tries the rows of a subject that stand under a key of its file.
fn try_rows(cases: &mut Cases, subject: Subject, file: &Table, key: &str) -> Result<(), NoMemory> {
    let Some(Value::Array(rows)) = file.get(key) else {
        return cases.compare(key, "no rows", "rows");
    };
    for row in rows {
        try_row(cases, subject, file, row)?;
    }
    Ok(())
}

/// Tries the cases of a subject that no row tells.
fn try_made(cases: &mut Cases, subject: Subject) -> Result<(), NoMemory> {
    match subject {
        Subject::Kernels => kernels::try_made(cases),
        Subject::Rules => rules::try_most_units(cases),
        Subject::Orders => orders::try_made(cases),
        _ => Ok(()),
    }
}

/// What was tried of a subject.
fn tried(alloc: Global, subject: Subject, file: &Table) -> Result<Cases, NoMemory> {
    let mut cases = Cases::new(alloc);
    try_rows(&mut cases, subject, file, "row")?;
    try_made(&mut cases, subject)?;
    Ok(cases)
}

/// Tries a subject, and prints what came of it.
fn print_subject(rt: &HostRuntime, subject: Subject, name: &str, file: &str) -> Result<()> {
    let file = read_file(rt, file)?;
    print_cases(rt, name, tried(rt.alloc(), subject, &file))?;
    Ok(())
}

/// Tries the wrong rows of a subject.
fn try_wrong(rt: &HostRuntime, cases: &mut Cases, subject: Subject, file: &str) -> Result<()> {
    let file = read_file(rt, file)?;
    let tried = try_rows(cases, subject, &file, "wrong");
    tried.ok().context("no memory")
}

fn main(rt: HostRuntime) -> Result<()> {
    for (subject, name, file) in SUBJECTS {
        print_subject(&rt, subject, name, file)?;
    }
    let mut cases = Cases::new(rt.alloc());
    for (subject, file) in WRONG {
        try_wrong(&rt, &mut cases, subject, file)?;
    }
    print_cases(&rt, "wrong", Ok(cases))?;
    Ok(())
}
