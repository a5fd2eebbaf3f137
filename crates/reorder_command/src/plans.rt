//! The plan that is searched for.
ghost use Rattle.std.specs.Prelude.{IfOk};
ghost use Rattle.chain_rules.specs.Legality.{IsLegal};
ghost use Rattle.design_files.specs.Files.{Texts};
ghost use Rattle.design_files.specs.Stages.{AreChecked};
ghost use Rattle.reorder_command.specs.declared.goal.Goal.TheVariants as goals;
ghost use Rattle.reorder_command.specs.Planned.{IsGoodIn, AreMeasuredIn};

use crate::balanced::balanced_plan;
use crate::figures::{FoundPlan, Lengths, Measured};
use crate::goal::Goal;
use base_types::NoMemory;
use chain_rules::Plan;
use design_files::DesignFiles;
use order_search::Effort;
use plan_search::{Progress, search_plan};
use std::alloc::Global;
use std::mem;

/// A plan that no step of the effort makes shorter.
fn shorter_plan<P: Progress>(
    alloc: Global,
    files: &DesignFiles,
    effort: Effort,
    progress: &P,
) -> Result<FoundPlan, NoMemory>
    requires checked { (t : Texts) × AreChecked t files.now }
    ensures legal { IfOk result (λ found. IsLegal files.now.rules found.plan) }
    ensures good { IfOk result (λ found. IsGoodIn (goals.Shorter effort) files.now found.plan) }
    ensures measured { IfOk result (λ found. AreMeasuredIn (goals.Shorter effort) files.now found.plan found.measured) }
{
    let mut found = search_plan(alloc, &files.rules, &files.ends, effort, progress)?;
    let lengths = Lengths {
        read: found.read_length.unsigned_abs(),
        nearest: found.nearest_length.unsigned_abs(),
        written: found.length.unsigned_abs(),
    };
    Ok(FoundPlan {
        plan: mem::replace(&mut found.plan, Plan::of(Vec::new(alloc))),
        measured: Measured::Lengths(lengths),
    })
}

/// The plan that is searched for in checked files, and what is measured of it.
pub(crate) fn plan_for<P: Progress>(
    alloc: Global,
    files: &DesignFiles,
    goal: Goal,
    progress: &P,
) -> Result<FoundPlan, NoMemory>
    requires checked { (t : Texts) × AreChecked t files.now }
    ensures legal { IfOk result (λ found. IsLegal files.now.rules found.plan) }
    ensures good { IfOk result (λ found. IsGoodIn goal files.now found.plan) }
    ensures measured { IfOk result (λ found. AreMeasuredIn goal files.now found.plan found.measured) }
{
    match goal {
        Goal::Shorter(effort) => shorter_plan(alloc, files, effort, progress),
        Goal::Balanced => balanced_plan(alloc, files, progress),
    }
}
