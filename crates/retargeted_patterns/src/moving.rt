//! The scan calls of statements, moved to the new chains and counted.
ghost use Rattle.std.specs.Prelude.{◌≡◌, [], ◌++◌, All, IfOk, OnOk};
ghost use Rattle.stil_calls.specs.declared.judging.Judging.TheVariants.{Lengths};
ghost use Rattle.stil_calls.specs.Scans.{bits_of};
ghost use Rattle.stil_calls.specs.Statements.{IsAcceptedBy, IsAcceptedIn};
ghost use Rattle.stil_tester.specs.Shifting.{bit_counts};
ghost use Rattle.stil_writer.specs.Loops.{call_moved, calls_moved};
ghost use Rattle.retarget.specs.Moved.{moved_call};
ghost use Rattle.retargeted_patterns.specs.Figures.{plus, call_figures, part_figures, body_figures};

use crate::figures::PatternFigures;
use base_types::{NoMemory, Rows};
use retarget::{Map, retarget_call};
use std::alloc::Global;
use stil_types::{BodyStatement, ScanCall, StilHead};

/// A scan call on the new chains, and what is counted of it.
#[derive(Drop)]
pub(crate) struct MovedCall {
    pub call: ScanCall,
    pub figures: PatternFigures,
}

/// The scan calls in the block of a Loop on the new chains, and what is counted of one round.
#[derive(Drop)]
pub(crate) struct MovedBody {
    pub calls: Rows<ScanCall>,
    pub figures: PatternFigures,
}

/// A scan call that was read beside the head.
pub(crate) fn move_call(
    alloc: Global,
    head: &StilHead,
    map: &Map,
    call: &ScanCall,
) -> Result<MovedCall, NoMemory>
    requires fits { bit_counts map.now.0 ≡ bits_of head.now.chains }
    requires accepted { IsAcceptedBy Lengths head.now call.now }
    ensures call { IfOk result (λ moved. moved.call ≡ moved_call map.now.0 map.now.1 call.now) }
    ensures figures { IfOk result (λ moved. moved.figures ≡ call_figures map.now.0 map.now.1 call.now) }
{
    let moved = retarget_call(alloc, map, call)?;
    let figures = PatternFigures {
        calls: 1,
        shifts_read: call.shifts as u128,
        shifts_written: moved.shifts as u128,
    };
    Ok(MovedCall {
        call: moved,
        figures,
    })
}

/// Puts the scan call of a statement in the block, where it has one, behind those before it.
fn push_moved(
    alloc: Global,
    head: &StilHead,
    map: &Map,
    call: &Option<ScanCall>,
    body: &mut MovedBody,
) -> Result<(), NoMemory>
    requires fits { bit_counts map.now.0 ≡ bits_of head.now.chains }
    requires accepted { IsAcceptedIn Lengths head.now call.now }
    ensures calls { OnOk result (body.new.calls ≡ body.old.calls ++ call_moved (moved_call map.now.0 map.now.1) call.now []) }
    ensures figures { OnOk result (body.new.figures ≡ plus body.old.figures (part_figures map.now.0 map.now.1 call.now)) }
{
    match call {
        None => Ok(()),
        Some(call) => {
            let moved = move_call(alloc, head, map, call)?;
            body.figures = body.figures.plus(moved.figures)?;
            body.calls.push(moved.call)
        }
    }
}

/// The scan calls of a block that was read beside the head.
pub(crate) fn move_body(
    alloc: Global,
    head: &StilHead,
    map: &Map,
    body: &[BodyStatement],
) -> Result<MovedBody, NoMemory>
    requires fits { bit_counts map.now.0 ≡ bits_of head.now.chains }
    requires accepted { All (λ statement. IsAcceptedIn Lengths head.now statement.call) body.now }
    ensures calls { IfOk result (λ moved. moved.calls ≡ calls_moved (moved_call map.now.0 map.now.1) body.now) }
    ensures figures { IfOk result (λ moved. moved.figures ≡ body_figures map.now.0 map.now.1 body.now) }
{
    let mut moved = MovedBody {
        calls: Rows::new(alloc),
        figures: PatternFigures::nothing(),
    };
    for statement in body {
        push_moved(alloc, head, map, &statement.call, &mut moved)?;
    }
    Ok(moved)
}
