//! The outputs that are asked for.
ghost use Rattle.std.specs.Prelude.{◌≡◌, ◌++◌, ◌∷◌, [], List, ℕ, map, true, false, IfOk};
ghost use Rattle.base_types.specs.FirstFault.{IfFault};
ghost use Rattle.traced_paths.specs.Asked.{Asked, told};
ghost use Rattle.traced_paths.specs.Traced.{LacksPort};
ghost use Rattle.traced_paths.specs.Steps.{HaveOutputs, AreOutputs, AreFull, IsTooMany};

use crate::asks::Ask;
use crate::ports::output;
use base_types::{Fault, FileKind, Kind, NoMemory, ReadFault};
use netlist_core::{NetId, Ports};
use std::alloc::Global;
use std::collections::HashSet;

/// How many paths may be asked for.
const MOST_PATHS: usize = 256;

/// Puts the output of one chain behind the others, unless it stands among them; answers false where it would be one too many.
fn put_output<'a>(
    ports: &Ports<'_>,
    nets: &mut Vec<NetId>,
    seen: &mut HashSet<&'a [u8]>,
    ask: &Ask<'a>,
) -> Result<bool, NoMemory>
    requires there { (line : ℕ) → LacksPort ports.now (told ask.now ∷ []) line → ⊥ }
    ensures put { IfOk result (λ put. put ≡ true → (before : List Asked) → HaveOutputs ports.now before nets.old.items seen.old → HaveOutputs ports.now (before ++ told ask.now ∷ []) nets.new.items seen.new) }
    ensures full { IfOk result (λ put. put ≡ false → (before : List Asked) → HaveOutputs ports.now before nets.old.items seen.old → AreFull before (told ask.now)) }
{
    let Some(name) = ask.output else {
        return Ok(true);
    };
    if !seen.insert(name)? {
        return Ok(true);
    }
    if nets.len() == MOST_PATHS {
        return Ok(false);
    }
    let Some(net) = output(ports, name) else {
        unreachable!()
    };
    nets.push(net)?;
    Ok(true)
}

/// The outputs that are asked for, in order, each once; or TooManyPaths, where the 257th is asked for.
pub(crate) fn outputs_of(
    alloc: Global,
    ports: &Ports<'_>,
    asks: &[Ask<'_>],
    file: FileKind,
) -> Result<Vec<NetId>, ReadFault>
    requires there { (line : ℕ) → LacksPort ports.now (map told asks.now) line → ⊥ }
    ensures value { IfOk result (λ nets. AreOutputs ports.now (map told asks.now) nets.items) }
    ensures fault { IfFault result (IsTooMany file (map told asks.now)) }
{
    let mut nets = Vec::new(alloc);
    let mut seen = HashSet::new(alloc);
    for ask in asks {
        if !put_output(ports, &mut nets, &mut seen, ask)? {
            return Err(ReadFault::Fault(Fault::at_line(Kind::TooManyPaths, file, ask.line)));
        }
    }
    Ok(nets)
}
