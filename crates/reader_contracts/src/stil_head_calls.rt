//! The contracts of `stil_head`.
ghost use Rattle.base_types.specs.FirstFault.{IfFault, IsFirstFault};
ghost use Rattle.base_types.specs.declared.fault.Fault.{Fault as ghost_fault};
ghost use Rattle.std.specs.Prelude.{IfOk, OnOk, Some, length, true, ◌<◌, ◌^◌, ◌≡◌, ◌≤◌};
ghost use Rattle.stil_head.specs.Faults.{HoldsInHead};
ghost use Rattle.stil_head.specs.Heads.{DenotesHead};
ghost use Rattle.stil_parts.specs.ByTokens.{head_place};
ghost use Rattle.stil_parts.specs.Heads.{head_end};
ghost use Rattle.stil_parts.specs.declared.gap.Comment.TheVariants.{Outside as ghost_outside};
ghost use Rattle.stil_types.specs.declared.head.StilHead.{StilHead as ghost_head};

use base_types::ReadFault;
use std::alloc::Global;
use stil_types::StilHead;

/// As `stil_head::read_head`.
pub fn read_head(alloc: Global, bytes: &[u8]) -> Result<StilHead, ReadFault>
    requires size { length bytes.now < 2 ^ 32 }
    ensures value { IfOk result (DenotesHead bytes.now) }
    // It ends, by the tokens, where the first statement begins whose word is Pattern.
    ensures ends { IfOk result (λ head. head.end ≡ head_place bytes.now) }
    ensures only { IfOk result (λ head. (other : ghost_head) → DenotesHead bytes.now other → other ≡ head) }
    ensures first { IfFault result (IsFirstFault (HoldsInHead bytes.now)) }
    ensures no_fault { OnOk result ((fault : ghost_fault) → HoldsInHead bytes.now fault → ⊥) }
{
    stil_head::read_head(alloc, bytes)
}

/// As `stil_head::head_len`.
pub fn head_len(bytes: &[u8]) -> usize
    requires size { length bytes.now < 2 ^ 32 }
    ensures value { head_end true ghost_outside 0 bytes.now ≡ Some result }
    // By the tokens it is the place of the first statement whose word is Pattern.
    ensures tokens { result ≡ head_place bytes.now }
    ensures within { result ≤ length bytes.now }
{
    stil_head::head_len(bytes)
}
