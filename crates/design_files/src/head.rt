//! The head of the files' patterns.
ghost use Rattle.std.specs.Prelude.{◌≡◌, ◌<◌, ◌^◌, length, option_map, IfOk, IfSome, IsSomeAnd};
ghost use Rattle.base_types.specs.declared.fault.Fault.{Fault as ghost_fault};
ghost use Rattle.base_types.specs.FirstFault.{IfFault};
ghost use Rattle.head_chains.specs.Chains.{HoldsInChains};
ghost use Rattle.design_files.specs.Files.{Texts};
ghost use Rattle.design_files.specs.Faults.{IsFilesFault};
ghost use Rattle.design_files.specs.Stages.{AreKnown, IsHeadKnown, DoAgree};

use crate::files::Files;
use base_types::ReadFault;
use head_chains::check_chains;
use std::alloc::Global;
use stil_head::read_head;
use stil_types::StilHead;

/// The head of a text of less than 4 GiB, where there is one; or the first fault: of the head, of the ports of the chains beside it.
pub(crate) fn head_in(
    alloc: Global,
    files: &Files,
    text: Option<&[u8]>,
) -> Result<Option<StilHead>, ReadFault>
    requires size { IfSome text (λ bytes. length bytes.now < 2 ^ 32) }
    requires agreed { DoAgree files.now.netlist files.now.table files.now.macros files.now.design }
    ensures known { IfOk result (IsHeadKnown (option_map (λ bytes. bytes.now) text.entry)) }
    ensures declared { IfOk result (λ head. (fault : ghost_fault) → IsSomeAnd head (λ h. HoldsInChains files.now.design h fault) → ⊥) }
    ensures fault { IfFault result (λ fault. (t : Texts) → t.head ≡ option_map (λ bytes. bytes.now) text.entry → AreKnown t files.now.table files.now.macros files.now.netlist files.now.design → IsFilesFault t fault) }
{
    let Some(text) = text else {
        return Ok(None);
    };
    let head = read_head(alloc, text)?;
    match check_chains(&files.design, &head) {
        Ok(()) => Ok(Some(head)),
        Err(fault) => Err(ReadFault::Fault(fault)),
    }
}
