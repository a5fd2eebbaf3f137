//! Patterns played by hand on three flops, as read and as written for a new order.
//!
//! A row of `playing.toml` has chains as `read`, as in `calls`, `loads`, `compares`, and whether the device `mixes`. A call
//! loads, the device captures, and another call compares. Where the row has `verdicts`, one call loads and compares in a
//! Loop that runs twice. As `wanted` come the cells and the verdict of each scan call, the verdicts of the device, and the
//! cells at the end; as `verdicts` those of the scan calls alone, and the cells at the end.
ghost use Rattle.std.specs.Prelude.{◌≡◌, [], ◌∷◌, IfOk, IfSome};
ghost use Rattle.stil_tester.specs.Runs.{AreStatementsFor};
ghost use Rattle.stil_tester.specs.Shifting.{AreChains, IsCallFor};

use crate::calls::{call_by, chains_of};
use crate::rows::{text, truth};
use base_types::{NoMemory, Rows, Text};
use row_forms::{Cases, Part, put};
use std::alloc::Global;
use std::fmt::Write;
use stil_tester::{Chains, Device, Hold, Mix, PlayLog, Player, Symbol, is_call_for, play};
use stil_types::{BodyStatement, PatternStatement, ScanCall};
use toml::Value;

/// What is answered where strings are no calls for the chains.
const NO_CALL: &str = "no call for these chains";

/// A call that loads, a capture, and a call that compares.
fn three_statements(
    alloc: Global,
    chains: &Chains,
    loads: ScanCall,
    compares: ScanCall,
) -> Result<Vec<PatternStatement>, NoMemory>
    requires loads { IsCallFor chains.now loads }
    requires compares { IsCallFor chains.now compares }
    ensures { IfOk result (λ statements. AreStatementsFor chains.now statements.items) }
{
    Ok(vec![in alloc;
        PatternStatement::Scan {
            pattern: 0,
            text: Text::copy(alloc, b"Call load_unload {}")?,
            call: loads,
            line: 14,
        },
        PatternStatement::Other {
            pattern: 0,
            text: Text::copy(alloc, b"Call capture;")?,
        },
        PatternStatement::Scan {
            pattern: 0,
            text: Text::copy(alloc, b"Call load_unload {}")?,
            call: compares,
            line: 16,
        },
    ]?)
}

/// A load, a capture, and a call that compares, or None where they are no calls for the chains.
fn patterns(
    alloc: Global,
    chains: &Chains,
    row: &Value,
) -> Result<Option<Vec<PatternStatement>>, NoMemory>
    ensures { IfOk result (λ made. IfSome made (λ statements. AreStatementsFor chains.now statements.items)) }
{
    let loads = call_by(alloc, text(row, "loads"), "XXX")?;
    let compares = call_by(alloc, "NNN", text(row, "compares"))?;
    if !is_call_for(chains, &loads) || !is_call_for(chains, &compares) {
        return Ok(None);
    }
    Ok(Some(three_statements(alloc, chains, loads, compares)?))
}

/// Two rounds of a call that loads and compares, and a capture.
fn rounds_of(alloc: Global, chains: &Chains, call: ScanCall) -> Result<PatternStatement, NoMemory>
    requires { IsCallFor chains.now call }
    ensures { IfOk result (λ statement. AreStatementsFor chains.now (statement ∷ [])) }
{
    let loads = BodyStatement {
        start: 9,
        end: 26,
        line: 15,
        call: Some(call),
    };
    let captures = BodyStatement {
        start: 27,
        end: 40,
        line: 16,
        call: None,
    };
    Ok(PatternStatement::Loop {
        pattern: 0,
        text: Text::copy(alloc, b"Loop 2 { Call load_unload; Call capture; }")?,
        times: 2,
        body: Rows::of(vec![in alloc; loads, captures]?),
        line: 14,
    })
}

/// Two rounds of a row's call, or None where that is no call for the chains.
fn two_rounds(
    alloc: Global,
    chains: &Chains,
    row: &Value,
) -> Result<Option<PatternStatement>, NoMemory>
    ensures { IfOk result (λ made. IfSome made (λ statement. AreStatementsFor chains.now (statement ∷ []))) }
{
    let call = call_by(alloc, text(row, "loads"), text(row, "compares"))?;
    if !is_call_for(chains, &call) {
        return Ok(None);
    }
    Ok(Some(rounds_of(alloc, chains, call)?))
}

/// Puts what cells hold behind a text.
fn put_cells(came: &mut String, cells: &[Symbol]) -> Result<(), NoMemory> {
    write!(came, "{cells:?}")?;
    Ok(())
}

fn shown(passed: bool) -> &'static str {
    if passed { "true" } else { "false" }
}

/// Whether all verdicts are good.
fn all_passed(verdicts: &[bool]) -> bool {
    for passed in verdicts {
        if !*passed {
            return false;
        }
    }
    true
}

/// Puts what was played behind a text, as a row has it.
fn put_log(came: &mut String, log: &PlayLog, cells: &[Symbol]) -> Result<(), NoMemory> {
    for scan in log.scans.as_slice() {
        put_cells(came, scan.loaded.as_slice())?;
        let passed = Part::Text(shown(scan.passed));
        put(came, &[Part::Text(" "), passed, Part::Text(", ")])?;
    }
    let others = log.others.as_slice();
    let passed = Part::Text(shown(all_passed(others)));
    let count = Part::Number(others.len() as u64);
    put(came, &[count, Part::Text(" "), passed, Part::Text(", ")])?;
    put_cells(came, cells)
}

/// Plays statements, and puts what is shown behind a text.
fn put_played<D: Device>(
    alloc: Global,
    came: &mut String,
    chains: &Chains,
    statements: &[PatternStatement],
    device: &mut D,
) -> Result<(), NoMemory>
    requires chains { AreChains chains.now }
    requires statements { AreStatementsFor chains.now statements.now }
{
    let mut cells = vec![in alloc; Symbol::Zero; chains.cells as usize]?;
    let log = play(alloc, chains, statements, device, &mut cells)?;
    put_log(came, &log, cells.as_slice())
}

/// Plays statements on a device that mixes, or on one that holds.
fn put_on(
    alloc: Global,
    came: &mut String,
    chains: &Chains,
    statements: &[PatternStatement],
    mixes: bool,
) -> Result<(), NoMemory>
    requires chains { AreChains chains.now }
    requires statements { AreStatementsFor chains.now statements.now }
{
    if mixes {
        put_played(alloc, came, chains, statements, &mut Mix)
    } else {
        put_played(alloc, came, chains, statements, &mut Hold)
    }
}

/// Puts verdicts behind a text.
fn put_verdicts(came: &mut String, passed: &[bool]) -> Result<(), NoMemory> {
    write!(came, "{passed:?} ")?;
    Ok(())
}

/// Plays a statement and keeps the verdicts of its scan calls alone: these, and the cells at the end.
fn put_kept<D: Device>(
    alloc: Global,
    came: &mut String,
    chains: &Chains,
    statement: &PatternStatement,
    device: &mut D,
) -> Result<(), NoMemory>
    requires chains { AreChains chains.now }
    requires statement { AreStatementsFor chains.now (statement.now ∷ []) }
{
    let mut cells = vec![in alloc; Symbol::Zero; chains.cells as usize]?;
    let mut player = Player::new(alloc, chains)?;
    let mut passed = Vec::new(alloc);
    player.run(chains, statement, device, &mut cells, &mut passed)?;
    put_verdicts(came, passed.as_slice())?;
    put_cells(came, cells.as_slice())
}

/// Plays a statement of a row and compares the verdicts of its scan calls.
fn try_kept(
    cases: &mut Cases,
    row: &Value,
    chains: &Chains,
    statement: &PatternStatement,
) -> Result<(), NoMemory>
    requires chains { AreChains chains.now }
    requires statement { AreStatementsFor chains.now (statement.now ∷ []) }
{
    let mut came = String::new(cases.alloc);
    if truth(row, "mixes") {
        put_kept(cases.alloc, &mut came, chains, statement, &mut Mix)?;
    } else {
        put_kept(cases.alloc, &mut came, chains, statement, &mut Hold)?;
    }
    cases.compare(text(row, "name"), came.as_str(), text(row, "verdicts"))
}

/// Plays the statements of a row.
fn try_played(
    cases: &mut Cases,
    row: &Value,
    chains: &Chains,
    statements: &[PatternStatement],
) -> Result<(), NoMemory>
    requires chains { AreChains chains.now }
    requires statements { AreStatementsFor chains.now statements.now }
{
    let mut came = String::new(cases.alloc);
    put_on(
        cases.alloc,
        &mut came,
        chains,
        statements,
        truth(row, "mixes"),
    )?;
    cases.compare(text(row, "name"), came.as_str(), text(row, "wanted"))
}

/// Tries a row with a Loop.
fn try_rounds(cases: &mut Cases, row: &Value, chains: &Chains) -> Result<(), NoMemory>
    requires { AreChains chains.now }
{
    match two_rounds(cases.alloc, chains, row)? {
        None => cases.compare(text(row, "name"), NO_CALL, text(row, "wanted")),
        Some(rounds) => {
            try_kept(cases, row, chains, &rounds)?;
            let statements = vec![in cases.alloc; rounds]?;
            try_played(cases, row, chains, statements.as_slice())
        }
    }
}

/// Tries a row without a Loop.
fn try_patterns(cases: &mut Cases, row: &Value, chains: &Chains) -> Result<(), NoMemory>
    requires { AreChains chains.now }
{
    match patterns(cases.alloc, chains, row)? {
        None => cases.compare(text(row, "name"), NO_CALL, text(row, "wanted")),
        Some(statements) => try_played(cases, row, chains, statements.as_slice()),
    }
}

pub(crate) fn try_row(cases: &mut Cases, row: &Value) -> Result<(), NoMemory> {
    let Some(chains) = chains_of(cases.alloc, text(row, "read"))? else {
        return cases.compare(text(row, "name"), NO_CALL, text(row, "wanted"));
    };
    if row.get("verdicts").is_some() {
        try_rounds(cases, row, &chains)
    } else {
        try_patterns(cases, row, &chains)
    }
}
