//! The contracts of `scan_verify`.
ghost use Rattle.retarget.specs.Judging.{IsAccepted};
ghost use Rattle.scan_verify.specs.Patterns.{AreSameStatements, IsReady};
ghost use Rattle.scan_verify.specs.Reruns.{BackLaw};
ghost use Rattle.scan_verify.specs.Sameness.{AreSame, IsFirstDifference};
ghost use Rattle.scan_verify.specs.Sets.{IsSameness};
ghost use Rattle.std.specs.Prelude.{All, IfOk, IsTrue, MatchOption, ◌↔◌};
ghost use Rattle.stil_tester.specs.Meaning.{ShowSame};
ghost use Rattle.stil_tester.specs.Shifting.{IsCallFor};

use base_types::NoMemory;
use retarget::Map;
use scan_verify::Sameness;
use std::alloc::Global;
use stil_reader::Stil;
use stil_types::{PatternStatement, ScanCall};

/// As `scan_verify::same_call`.
pub fn same_call(map: &Map, a: &ScanCall, b: &ScanCall) -> bool
    requires old_call { IsCallFor map.now.0 a.now }
    requires old_accepted { IsAccepted map.now.0 a.now }
    requires new_call { IsCallFor map.now.1 b.now }
    requires new_accepted { IsAccepted map.now.1 b.now }
    ensures value { IsTrue result ↔ ShowSame map.now.0 map.now.1 a.now b.now }
{
    scan_verify::same_call(map, a, b)
}

/// As `scan_verify::same_statement`.
pub fn same_statement(
    alloc: Global,
    map: &Map,
    a: &PatternStatement,
    b: &PatternStatement,
) -> Result<bool, NoMemory>
    requires old { IsReady map.now.0 a.now }
    requires new { IsReady map.now.1 b.now }
    ensures value { IfOk result (λ same. IsTrue same ↔ AreSameStatements map.now.0 map.now.1 a.now b.now) }
{
    scan_verify::same_statement(alloc, map, a, b)
}

/// As `scan_verify::same_patterns`.
pub fn same_patterns(alloc: Global, map: &Map, a: &Stil, b: &Stil) -> Result<Sameness, NoMemory>
    requires old { All (IsReady map.now.0) a.now.statements }
    requires new { All (IsReady map.now.1) b.now.statements }
    ensures value { IfOk result (IsSameness map.now.0 map.now.1 a.now.patterns a.now.statements b.now.patterns b.now.statements) }
{
    scan_verify::same_patterns(alloc, map, a, b)
}

/// As `scan_verify::first_difference`.
pub fn first_difference(map: &Map, a: &ScanCall, b: &ScanCall) -> Option<u32>
    requires old_call { IsCallFor map.now.0 a.now }
    requires new_call { IsCallFor map.now.1 b.now }
    ensures value { MatchOption result (AreSame map.now.0 map.now.1 a.now b.now) (IsFirstDifference map.now.0 map.now.1 a.now b.now) }
{
    scan_verify::first_difference(map, a, b)
}

/// As `scan_verify::back_law`.
pub fn back_law()
    ensures back { BackLaw }
{
    scan_verify::back_law()
}
