//! The ports that are asked for.
ghost use Rattle.std.specs.Prelude.{◌≡◌, ◌⊎◌, map, MatchOption};
ghost use Rattle.std.specs.Bool.{Decides};
ghost use Rattle.netlist_core.specs.declared.netlist.NetId.{NetId as Net};
ghost use Rattle.chain_trace.specs.Paths.{drives, is_driven};
ghost use Rattle.chain_trace.specs.Named.{IsPortNamed};
ghost use Rattle.list_laws.specs.Leasts.{IsLeast};
ghost use Rattle.traced_paths.specs.Traced.{HasNoInput, HasNoOutput, LacksPort};
ghost use Rattle.traced_paths.specs.Asked.{told};

use crate::asks::Ask;
use list_laws::{lesser, line_if};
use netlist_core::{Direction, NetId, Ports};

fn drives(direction: Direction) -> bool
    ensures value { result ≡ drives direction }
{
    matches!(direction, Direction::Input | Direction::Inout)
}

fn is_driven(direction: Direction) -> bool
    ensures value { result ≡ is_driven direction }
{
    matches!(direction, Direction::Output | Direction::Inout)
}

/// The bit of an input or inout port that has this plain name.
fn input(ports: &Ports<'_>, name: &[u8]) -> Option<NetId>
    ensures value { MatchOption result ((net : Net) → IsPortNamed drives ports.now name.now net → ⊥) (IsPortNamed drives ports.now name.now) }
{
    let Some(port) = ports.named(name) else {
        return None;
    };
    if drives(port.direction) {
        return Some(port.net);
    }
    None
}

/// The bit of an output or inout port that has this plain name.
pub(crate) fn output(ports: &Ports<'_>, name: &[u8]) -> Option<NetId>
    ensures value { MatchOption result ((net : Net) → IsPortNamed is_driven ports.now name.now net → ⊥) (IsPortNamed is_driven ports.now name.now) }
{
    let Some(port) = ports.named(name) else {
        return None;
    };
    if is_driven(port.direction) {
        return Some(port.net);
    }
    None
}

fn lacks_input(ports: &Ports<'_>, ask: &Ask<'_>) -> bool
    ensures exact { Decides result (HasNoInput ports.now (told ask.now)) }
{
    match ask.input {
        Some(name) => input(ports, name).is_none(),
        None => false,
    }
}

fn lacks_output(ports: &Ports<'_>, ask: &Ask<'_>) -> bool
    ensures exact { Decides result (HasNoOutput ports.now (told ask.now)) }
{
    match ask.output {
        Some(name) => output(ports, name).is_none(),
        None => false,
    }
}

/// Whether a port that is asked for isn't there.
fn lacks(ports: &Ports<'_>, ask: &Ask<'_>) -> bool
    ensures exact { Decides result (HasNoInput ports.now (told ask.now) ⊎ HasNoOutput ports.now (told ask.now)) }
{
    lacks_input(ports, ask) || lacks_output(ports, ask)
}

/// The least line at which a port is asked for that isn't there.
pub(crate) fn least_lacking(ports: &Ports<'_>, asks: &[Ask<'_>]) -> Option<u64>
    ensures value { IsLeast (LacksPort ports.now (map told asks.now)) result }
{
    let mut least = None;
    for ask in asks {
        least = lesser(least, line_if(lacks(ports, ask), ask.line));
    }
    least
}
