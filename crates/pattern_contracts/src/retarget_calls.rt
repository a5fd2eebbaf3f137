//! The contracts of `retarget`.
ghost use Rattle.retarget.specs.Homes.{home_of};
ghost use Rattle.retarget.specs.Judging.{ComparesCells, IsAccepted, IsRefusal, LoadsCells};
ghost use Rattle.retarget.specs.Moved.{moved_call as moved_call_of};
ghost use Rattle.retarget.specs.Places.{StandsAt, longest};
ghost use Rattle.retarget.specs.Retargeting.{AreFull, KeepsCompares, KeepsLoads, WritesCompares, WritesLoads};
ghost use Rattle.std.specs.Prelude.{IfNone, IfOk, IfSome, List, ◌<◌, ◌≡◌};
ghost use Rattle.stil_tester.specs.Shifting.{AreChains, HasCells, IsCallFor, scan_call};
ghost use Rattle.stil_tester.specs.declared.symbol.Symbol.{Symbol};

use base_types::{Kind, NoMemory};
use retarget::{Home, Map};
use std::alloc::Global;
use stil_tester::Chains;
use stil_types::ScanCall;

/// As `retarget::judge_call`.
pub fn judge_call(chains: &Chains, call: &ScanCall) -> Option<Kind>
    requires chains { AreChains chains.now }
    requires call { IsCallFor chains.now call.now }
    ensures none { IfNone result (IsAccepted chains.now call.now) }
    ensures some { IfSome result (IsRefusal chains.now call.now) }

    // What a call does that isn't refused.
    ensures loads { IfNone result (0 < call.now.shifts → LoadsCells chains.now call.now) }
    ensures compares { IfNone result (0 < call.now.shifts → ComparesCells chains.now call.now) }
{
    retarget::judge_call(chains, call)
}

/// As `retarget::retarget_call`.
pub fn retarget_call(alloc: Global, map: &Map, call: &ScanCall) -> Result<ScanCall, NoMemory>
    requires call { IsCallFor map.now.0 call.now }
    requires accepted { IsAccepted map.now.0 call.now }

    // Whatever the cells hold before, they hold the same afterwards, and the verdict is the same.
    ensures meaning { IfOk result (λ written. (cells : List Symbol) → HasCells map.now.0 cells
        → scan_call map.now.1 cells written ≡ scan_call map.now.0 cells call.now) }
    ensures well_formed { IfOk result (IsCallFor map.now.1) }
    ensures accepted { IfOk result (IsAccepted map.now.1) }

    // Which call it is, and how it is written.
    ensures value { IfOk result (λ written. written ≡ moved_call_of map.now.0 map.now.1 call.now) }
    ensures unchanged { IfOk result (λ written. call.now.shifts ≡ 0 → written ≡ call.now) }
    ensures shifts { IfOk result (λ written. 0 < call.now.shifts → written.shifts ≡ longest map.now.1) }
    ensures loads { IfOk result (λ written. 0 < call.now.shifts → KeepsLoads map.now.0 map.now.1 call.now written) }
    ensures compares { IfOk result (λ written. 0 < call.now.shifts → KeepsCompares map.now.0 map.now.1 call.now written) }
    ensures writes_loads { IfOk result (λ written. 0 < call.now.shifts → WritesLoads map.now.1 call.now written) }
    ensures writes_compares { IfOk result (λ written. 0 < call.now.shifts → WritesCompares map.now.1 call.now written) }
    ensures full { IfOk result (λ written. 0 < call.now.shifts → AreFull written (longest map.now.1)) }
{
    retarget::retarget_call(alloc, map, call)
}

/// As `retarget::Map::old_home`.
pub fn map_old_home(map: &Map, cell: u32) -> Home
    requires within { cell < map.now.0.cells }
    ensures value { result ≡ home_of map.now.0 cell }
    ensures stands { StandsAt map.now.0 cell result.chain result.place }
{
    map.old_home(cell)
}

/// As `retarget::Map::new_home`.
pub fn map_new_home(map: &Map, cell: u32) -> Home
    requires within { cell < map.now.1.cells }
    ensures value { result ≡ home_of map.now.1 cell }
    ensures stands { StandsAt map.now.1 cell result.chain result.place }
{
    map.new_home(cell)
}
