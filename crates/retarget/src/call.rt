ghost use Rattle.std.specs.Prelude.{◌≡◌, ℕ, ◌<◌, ◌≤◌, List, IfOk};
ghost use Rattle.stil_tester.specs.declared.symbol.Symbol.{Symbol};
ghost use Rattle.stil_tester.specs.Shifting.{HasCells, IsCallFor, scan_call};
ghost use Rattle.retarget.specs.Places.{longest};
ghost use Rattle.retarget.specs.Judging.{IsAccepted};
ghost use Rattle.retarget.specs.Moved.{moved_call as moved_call_of};
ghost use Rattle.retarget.specs.Retargeting.{KeepsLoads, KeepsCompares, WritesLoads, WritesCompares, AreFull};
ghost use Rattle.retarget.specs.Exits.{IsMap};

use crate::map::Map;
use crate::route::Route;
use crate::side::Side;
use crate::strings::moved_strings;
use base_types::{NoMemory, Rows, Text};
use std::alloc::Global;
use stil_tester::Chains;
use stil_types::ScanCall;

/// The scan call that loads every cell alike on the new chains, and passes exactly when the read
/// one does on the old chains (IEEE 1450-1999, Shift).
///
/// A call that shifts is written with as many shifts as the longest new chain has bits, and each
/// string that is written at this length; a call without shifts stays as it is. The time is linear
/// in the cells and in the characters written. Want of memory is the only refusal.
pub fn retarget_call(alloc: Global, map: &Map, call: &ScanCall) -> Result<ScanCall, NoMemory>
    requires call { IsCallFor map.now.0 call.now }
    requires accepted { IsAccepted map.now.0 call.now }

    // Whatever the cells hold before, they hold the same afterwards, and the verdict is the same.
    ensures meaning { IfOk result (λ written. (cells : List Symbol) → HasCells map.now.0 cells
        → scan_call map.now.1 cells written ≡ scan_call map.now.0 cells call.now) }
    ensures well_formed { IfOk result (IsCallFor map.now.1) }
    ensures accepted { IfOk result (IsAccepted map.now.1) }

    // Which call it is, and how it is written.
    ensures value { IfOk result (λ written. written ≡ moved_call_of map.now.0 map.now.1 call.now) }
    ensures unchanged { IfOk result (λ written. call.now.shifts ≡ 0 → written ≡ call.now) }
    ensures shifts { IfOk result (λ written. 0 < call.now.shifts → written.shifts ≡ longest map.now.1) }
    ensures loads { IfOk result (λ written. 0 < call.now.shifts → KeepsLoads map.now.0 map.now.1 call.now written) }
    ensures compares { IfOk result (λ written. 0 < call.now.shifts → KeepsCompares map.now.0 map.now.1 call.now written) }
    ensures writes_loads { IfOk result (λ written. 0 < call.now.shifts → WritesLoads map.now.1 call.now written) }
    ensures writes_compares { IfOk result (λ written. 0 < call.now.shifts → WritesCompares map.now.1 call.now written) }
    ensures full { IfOk result (λ written. 0 < call.now.shifts → AreFull written (longest map.now.1)) }
{
    let shifts = map.shifts;
    if call.shifts == 0 {
        return copy_of_call(alloc, call);
    }
    moved_call(alloc, &map.old, &map.new, shifts, &map.route, call)
}

/// A call that shifts, on the new chains.
fn moved_call(
    alloc: Global,
    old: &Chains,
    new: &Chains,
    shifts: usize,
    route: &Route,
    call: &ScanCall,
) -> Result<ScanCall, NoMemory>
    requires map { IsMap old.now new.now shifts route.now }
    requires call { IsCallFor old.now call.now }
    requires some { 0 < call.now.shifts }
    ensures { IfOk result (λ written. written ≡ moved_call_of old.now new.now call.now) }
{
    let given = call.loads.as_slice();
    let loads = moved_strings(alloc, old, new, shifts, route, Side::Load, given)?;
    let given = call.compares.as_slice();
    let compares = moved_strings(alloc, old, new, shifts, route, Side::Compare, given)?;
    Ok(ScanCall {
        shifts,
        loads,
        compares,
    })
}

/// A copy of a call.
fn copy_of_call(alloc: Global, call: &ScanCall) -> Result<ScanCall, NoMemory>
    ensures { IfOk result (λ copy. copy ≡ call.now) }
{
    Ok(ScanCall {
        shifts: call.shifts,
        loads: copy_of_strings(alloc, call.loads.as_slice())?,
        compares: copy_of_strings(alloc, call.compares.as_slice())?,
    })
}

fn copy_of_strings(alloc: Global, strings: &[Option<Text>]) -> Result<Rows<Option<Text>>, NoMemory>
    ensures { IfOk result (λ copy. copy ≡ strings.now) }
{
    let mut copies = Rows::new(alloc);
    for string in strings {
        copies.push(copy_of_string(alloc, string)?)?;
    }
    Ok(copies)
}

fn copy_of_string(alloc: Global, string: &Option<Text>) -> Result<Option<Text>, NoMemory>
    ensures { IfOk result (λ copy. copy ≡ string.now) }
{
    match string {
        None => Ok(None),
        Some(text) => Ok(Some(Text::copy(alloc, text.bytes())?)),
    }
}
