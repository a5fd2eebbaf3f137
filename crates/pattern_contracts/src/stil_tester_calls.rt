//! The contracts of `stil_tester`.
ghost use Rattle.std.specs.Prelude.{IfOk, IsTrue, List, OnErr, OnOk, [], length, ◌++◌, ◌↔◌, ◌∷◌, ◌≡◌};
ghost use Rattle.stil_tester.specs.DeviceLaw.{AnswersAlike, AnswersForEachCell};
ghost use Rattle.stil_tester.specs.Meaning.{AllAlike, AllShowSame, HaveSameMeaning, PatternText, Patterns, Reading, RunAlike};
ghost use Rattle.stil_tester.specs.Runs.{AreAfterSome, AreStatementsFor, Behaviour, HaveRunSome, play_of, verdicts_of};
ghost use Rattle.stil_tester.specs.Shifting.{AllMet, AreChains, HasCells, IsCallFor, MoveOn, scan_call as scan_call_of, shift_step as shift_step_of};

use base_types::NoMemory;
use std::alloc::Global;
use stil_tester::{Chains, Device, PlayLog, Player, Symbol};
use stil_types::{PatternStatement, ScanCall};

/// As `stil_tester::shift_step`.
pub fn shift_step(chains: &Chains, cells: &mut [Symbol], ins: &[Symbol], outs: &mut [Symbol])
    requires chains { AreChains chains.now }
    requires cells { HasCells chains.now cells.old }
    requires ins { length ins.now ≡ length chains.now.chains }
    requires outs { length outs.old ≡ length chains.now.chains }
    ensures cells { cells.new ≡ (shift_step_of chains.now cells.old ins.now).cells }
    ensures outs { outs.new ≡ (shift_step_of chains.now cells.old ins.now).outs }
    ensures bits { MoveOn chains.now cells.old ins.now outs.new cells.new }
{
    stil_tester::shift_step(chains, cells, ins, outs)
}

/// As `stil_tester::scan_call`.
pub fn scan_call(
    alloc: Global,
    chains: &Chains,
    cells: &mut [Symbol],
    call: &ScanCall,
) -> Result<bool, NoMemory>
    requires chains { AreChains chains.now }
    requires cells { HasCells chains.now cells.old }
    requires call { IsCallFor chains.now call.now }
    ensures cells { OnOk result (cells.new ≡ (scan_call_of chains.now cells.old call.now).loaded) }
    ensures verdict { IfOk result (λ passed. passed ≡ (scan_call_of chains.now cells.old call.now).passed) }
    ensures met { IfOk result (λ passed. IsTrue passed ↔ AllMet chains.now cells.old call.now) }
    ensures unchanged { OnErr result (cells.new ≡ cells.old) }
{
    stil_tester::scan_call(alloc, chains, cells, call)
}

/// As `stil_tester::play`.
pub fn play<D: Device>(
    alloc: Global,
    chains: &Chains,
    statements: &[PatternStatement],
    device: &mut D,
    cells: &mut [Symbol],
) -> Result<PlayLog, NoMemory>
    requires chains { AreChains chains.now }
    requires cells { HasCells chains.now cells.old }
    requires statements { AreStatementsFor chains.now statements.now }
    ensures results { IfOk result (λ log. (play_of D.behaviour chains.now statements.now device.old cells.old).results ≡ record { scans = log.scans; others = log.others; cells = cells.new }) }
    ensures device { OnOk result (device.new ≡ (play_of D.behaviour chains.now statements.now device.old cells.old).device) }
    ensures prefix { OnErr result (AreAfterSome D.behaviour chains.now statements.now device.old cells.old device.new cells.new) }
{
    stil_tester::play(alloc, chains, statements, device, cells)
}

/// As `stil_tester::Player::run`.
pub fn player_run<D: Device>(
    player: &mut Player,
    chains: &Chains,
    statement: &PatternStatement,
    device: &mut D,
    cells: &mut [Symbol],
    passed: &mut Vec<bool>,
) -> Result<(), NoMemory>
    requires chains { AreChains chains.now }
    requires cells { HasCells chains.now cells.old }
    requires statement { AreStatementsFor chains.now (statement.now ∷ []) }
    requires ports { player.old ≡ length chains.now.chains }
    ensures verdicts { OnOk result (passed.new.items ≡ passed.old.items ++ verdicts_of (play_of D.behaviour chains.now (statement.now ∷ []) device.old cells.old).results.scans) }
    ensures cells { OnOk result (cells.new ≡ (play_of D.behaviour chains.now (statement.now ∷ []) device.old cells.old).results.cells) }
    ensures device { OnOk result (device.new ≡ (play_of D.behaviour chains.now (statement.now ∷ []) device.old cells.old).device) }
    ensures prefix { OnErr result (HaveRunSome D.behaviour chains.now (statement.now ∷ []) device.old cells.old passed.old.items device.new cells.new passed.new.items) }
    ensures ports { player.new ≡ player.old }
{
    player.run(chains, statement, device, cells, passed)
}

/// As `stil_tester::device_law`.
pub fn device_law<S>()
    ensures plays { (reading : Reading) (old new : Patterns) (device : Behaviour S) (state : S) (cells : List Symbol) → AnswersForEachCell device → AnswersAlike reading.tokens device → RunAlike reading old new → HasCells old.chains cells → play_of device old.chains old.statements state cells ≡ play_of device new.chains new.statements state cells }
{
    stil_tester::device_law::<S>()
}

/// As `stil_tester::meaning_law`.
pub fn meaning_law()
    ensures run { (reading : Reading) (old new : Patterns) → old.chains.cells ≡ new.chains.cells → AllAlike reading old.statements new.statements → AllShowSame old.chains new.chains old.statements new.statements → RunAlike reading old new }
    ensures meaning { (reading : Reading) (old new : PatternText) → old.head ≡ new.head → old.names ≡ new.names → RunAlike reading old.played new.played → HaveSameMeaning reading old new }
{
    stil_tester::meaning_law()
}
