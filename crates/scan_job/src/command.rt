ghost use Rattle.std.specs.Prelude.{◌≡◌};
ghost use Rattle.desk_io.specs.Desk.{AllUnopened};
ghost use Rattle.desk_io.specs.Names.{AllowsNames};
ghost use Rattle.scan_job.specs.Requests.{Request, order_of, names_of, IsAsked, IsDesignOrder};
ghost use Rattle.scan_job.specs.Ended.{HasRunOrder};

use crate::commands::bench::BenchRequest;
use crate::commands::bound::BoundRequest;
use crate::commands::check::CheckRequest;
use crate::commands::draw::DrawRequest;
use crate::commands::failmap::FailmapRequest;
use crate::commands::reorder::ReorderRequest;
use crate::commands::rewire::RewireRequest;
use crate::commands::trace::TraceRequest;
use crate::commands::verify::VerifyRequest;
use crate::patterns::run_patterns;
use crate::play::run_play;
use crate::stop::Stop;
use crate::whole::run_whole;
use desk_io::Desk;
use scan_words::{Order, Verb};
use std::alloc::Global;

/// The most values of an order of `reorder` or of `balance` that asks for a design alone.
const DESIGN_VALUES: usize = 7;

/// Does what an order of `reorder` or of `balance` asks for, of a design alone or with its patterns.
fn run_design<D: Desk>(alloc: Global, order: &Order, desk: &mut D) -> Result<(), Stop>
    requires asked { IsAsked order.now }
    requires made { IsDesignOrder order.now }
    requires unopened { AllUnopened (D.state desk.old) }
    requires allowed { (request : Request) → order_of request ≡ order.now → AllowsNames (names_of request) (D.allows desk.old) }
    ensures ended { HasRunOrder order.now (D.state desk.old) (D.state desk.new) result }
{
    if order.values.as_slice().len() <= DESIGN_VALUES {
        return run_whole::<ReorderRequest, D>(alloc, order, desk);
    }
    run_patterns(alloc, order, desk)
}

/// Does what an order asks for. This is the one place that knows all commands.
pub(crate) fn run_order<D: Desk>(alloc: Global, order: &Order, desk: &mut D) -> Result<(), Stop>
    requires asked { IsAsked order.now }
    requires unopened { AllUnopened (D.state desk.old) }
    requires allowed { (request : Request) → order_of request ≡ order.now → AllowsNames (names_of request) (D.allows desk.old) }
    ensures ended { HasRunOrder order.now (D.state desk.old) (D.state desk.new) result }
{
    match order.verb {
        Verb::Rewire => run_whole::<RewireRequest, D>(alloc, order, desk),
        Verb::Trace => run_whole::<TraceRequest, D>(alloc, order, desk),
        Verb::Check => run_whole::<CheckRequest, D>(alloc, order, desk),
        Verb::Reorder => run_design(alloc, order, desk),
        Verb::Play => run_play(alloc, order, desk),
        Verb::Bound => run_whole::<BoundRequest, D>(alloc, order, desk),
        Verb::Verify => run_whole::<VerifyRequest, D>(alloc, order, desk),
        Verb::Failmap => run_whole::<FailmapRequest, D>(alloc, order, desk),
        Verb::Bench => run_whole::<BenchRequest, D>(alloc, order, desk),
        Verb::Balance => run_design(alloc, order, desk),
        Verb::Draw => run_whole::<DrawRequest, D>(alloc, order, desk),
    }
}
