//! What holds of every path.
ghost use Rattle.std.specs.Prelude.{◌≡◌};
ghost use Rattle.netlist_core.specs.declared.netlist.NetId.{NetId};
ghost use Rattle.netlist_core.specs.declared.netlist.Netlist.{Netlist};
ghost use Rattle.cell_table.specs.Cells.{Cells};
ghost use Rattle.chain_trace.specs.declared.path.Path.{Path};
ghost use Rattle.base_types.specs.declared.fault.Fault.{Fault};
ghost use Rattle.chain_trace.specs.Paths.{IsScanPath};
ghost use Rattle.chain_trace.specs.Faults.{IsTraceFault};
ghost use Rattle.chain_trace.specs.Named.{NamesLaw};
ghost use Rattle.chain_trace.specs.Parities.{ParityLaw};

/// A scan output has at most one path, and none where a fault is met going backward from it, of which there is at most one.
/// The call does nothing; its contract is the law.
#[tactic(auto, using(crate::proofs::Unique::path_unique))]
pub fn path_law()
    ensures only { (n : Netlist) (cells : Cells) (output : NetId) (p q : Path) → IsScanPath n cells output p → IsScanPath n cells output q → p ≡ q }
    ensures no_fault { (n : Netlist) (cells : Cells) (output : NetId) (fault : Fault) → IsTraceFault n cells output fault → (p : Path) → IsScanPath n cells output p → ⊥ }
    ensures one_fault { (n : Netlist) (cells : Cells) (output : NetId) (f g : Fault) → IsTraceFault n cells output f → IsTraceFault n cells output g → f ≡ g }
{}

/// Paths hang on ports, assigns and instances by names, neither on the numbers of nets nor on other nets. The call does
/// nothing; its contract is the law.
pub fn names_law()
    ensures same { NamesLaw }
{}

/// Whether an output shows the inverse of what the input gave is the sum of the parities that `bits_of` tells. The call does
/// nothing; its contract is the law.
pub fn parity_law()
    ensures sum { ParityLaw }
{}
