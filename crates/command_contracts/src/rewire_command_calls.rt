//! The contracts of `rewire_command`.
ghost use Rattle.base_types.specs.FirstFault.{IfFault, IsFirstFault};
ghost use Rattle.base_types.specs.declared.fault.Fault.{Fault};
ghost use Rattle.rewire_command.specs.Faults.{HoldsInRewire};
ghost use Rattle.rewire_command.specs.Rewiring.{AreErasedAlike, HasPath, IsRewired};
ghost use Rattle.std.specs.Prelude.{IfOk, OnOk, length, ◌<◌, ◌^◌, ◌≢◌};

use base_types::ReadFault;
use rewire_command::{Rewire, Rewired};
use std::alloc::Global;

/// As `rewire_command::rewire_text`.
pub fn rewire_text(alloc: Global, text: &[u8], rewire: &Rewire) -> Result<Rewired, ReadFault>
    requires size { length text.now < 2 ^ 32 }
    requires pins { rewire.now.in_pin ≢ rewire.now.out_pin }
    ensures rewired { IfOk result (λ made. IsRewired text.now rewire.now made.verilog made.moved) }
    // But for the scan sinks and the tail both texts declare the same, and denote netlists that are the same by names.
    ensures erased { IfOk result (λ made. AreErasedAlike text.now rewire.now made.verilog) }
    // The written text has the path with the instances in the order of the words.
    ensures path { IfOk result (λ made. HasPath made.verilog rewire.now rewire.now.units) }
    ensures fault { IfFault result (IsFirstFault (HoldsInRewire text.now rewire.now)) }
    ensures no_fault { OnOk result ((fault : Fault) → HoldsInRewire text.now rewire.now fault → ⊥) }
{
    rewire_command::rewire_text(alloc, text, rewire)
}
