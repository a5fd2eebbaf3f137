ghost use Rattle.std.specs.Prelude.{◌≡◌, ◌≢◌, ◌⊎◌, ◌<◌, ◌≤◌, List, ℕ};
ghost use Rattle.base_types.specs.declared.fault.Fault.{Fault};
ghost use Rattle.desk_io.specs.declared.slot.Slot.{Slot};
ghost use Rattle.desk_io.specs.declared.slot.Slot.TheVariants.{Console};
ghost use Rattle.desk_io.specs.Desk.{IsInput, IsOutput, AllUnopened};
ghost use Rattle.desk_io.specs.Names.{AllowsNames};
ghost use Rattle.scan_words.specs.declared.order.Order.{Order};
ghost use Rattle.scan_words.specs.Written.{Says};
ghost use Rattle.desk_io.specs.Causes.{SomeRose, SameCounts};
ghost use Rattle.scan_job.specs.Requests.{Request, Bench, Asks, order_of, names_of};
ghost use Rattle.scan_job.specs.declared.commands.bench.BenchRequest.{BenchRequest};
ghost use Rattle.scan_job.specs.Faults.{IsRunFault, HasNoFault};
ghost use Rattle.scan_job.specs.TopCall.{SaysNothing, SameEverywhere, SameUnused, SameDesign, NoneRose, NoneOpen, AllClosed, AllRead, Reads, HasRefused, HasDone, HasWritten};
ghost use Rattle.scan_job.specs.Ended.{HasRun, status_of};

use crate::command::run_order;
use crate::stop::Stop;
use base_types::{NoMemory, Word};
use desk_io::Desk;
use made_law::made_law;
use scan_words::read_words;
use std::alloc::Global;

fn status_of(ended: Result<(), Stop>) -> u8
    ensures value { result ≡ status_of ended }
{
    match ended {
        Ok(()) => 0,
        Err(Stop::NoForm) => 1,
        Err(Stop::Refused) => 2,
        Err(Stop::InputFailed) => 3,
        Err(Stop::OutputFailed) => 4,
        Err(Stop::NoMemory) => 5,
    }
}

fn run_words<D: Desk>(alloc: Global, words: &[Word], desk: &mut D) -> Result<(), Stop>
    requires unopened { AllUnopened (D.state desk.old) }
    requires allowed { (request : Request) → Asks words.now request → AllowsNames (names_of request) (D.allows desk.old) }
    ensures ended { HasRun words.now (D.state desk.old) (D.state desk.new) result }
{
    match read_words(alloc, words) {
        Ok(Some(order)) => run_order(alloc, &order, desk),
        Ok(None) => Err(Stop::NoForm),
        Err(NoMemory) => Err(Stop::NoMemory),
    }
}

/// Does what the words ask for, and answers the status: 0 done, 1 the words are of no written form, 2 refused by a
/// fault, 3 an input failed, 4 an output or the console failed, 5 want of memory.
///
/// All inputs are taken whole, but patterns that are played or written anew: these are taken as they come, each once.
///
/// The words are those behind the program's name. Each slot of the desk is unopened, and where the words are of a
/// written form, the desk allows the value of each file option at that option's slot, and the empty name at the
/// console.
pub fn run<D: Desk>(alloc: Global, words: &[Word], desk: &mut D) -> u8
    requires unopened { AllUnopened (D.state desk.old) }
    requires allowed { (request : Request) → Asks words.now request → AllowsNames (names_of request) (D.allows desk.old) }

    ensures status { result ≤ 5 }

    // Words and slots.
    ensures no_form { result ≡ 1 → SaysNothing words.now }
    ensures form { result ≢ 1 → result ≢ 5 → ((request : Request) × Asks words.now request) }
    ensures asked { (order : Order) → Says words.now order → ((request : Request) × (order_of request ≡ order)) }
    ensures unopened { SaysNothing words.now → SameEverywhere (D.state desk.old) (D.state desk.new) }
    ensures slots { (request : Request) → Asks words.now request → SameUnused request (D.state desk.old) (D.state desk.new) }
    ensures closed { result ≡ 0 → (request : Request) → Asks words.now request → AllClosed request (D.state desk.new) }
    ensures none_open { (result ≡ 0) ⊎ (result ≡ 2) → NoneOpen (D.state desk.new) }
    ensures read { result ≡ 0 → (request : Request) → Asks words.now request → AllRead request (D.state desk.new) }

    // Refusals: only where, and wherever, the files have a fault.
    ensures refusal { result ≡ 2 → (request : Request) (files : Slot → List ℕ) → Asks words.now request → Reads request files (D.state desk.old) →
        HasRefused request files (D.state desk.old) (D.state desk.new) }
    ensures refusal_counts { (result ≡ 0) ⊎ (result ≡ 2) → SameCounts (D.state desk.old) (D.state desk.new) }
    ensures refuses { (request : Request) (files : Slot → List ℕ) → Asks words.now request → Reads request files (D.state desk.old) →
        (fault : Fault) → IsRunFault request files fault → NoneRose (D.state desk.old) (D.state desk.new) → (result ≡ 2) ⊎ (result ≡ 5) }

    // Causes of faults of the outside.
    ensures input_fault { result ≡ 3 → SomeRose IsInput (D.state desk.old) (D.state desk.new) }
    ensures output_fault { result ≡ 4 → SomeRose IsOutput (D.state desk.old) (D.state desk.new) }
    ensures input_fault_answered { (slot : Slot) → IsInput slot →
        (D.state desk.old slot).faults < (D.state desk.new slot).faults → (result ≡ 3) ⊎ (result ≡ 5) }
    ensures output_fault_answered { (slot : Slot) → IsOutput slot →
        (D.state desk.old slot).faults < (D.state desk.new slot).faults → (result ≡ 4) ⊎ (result ≡ 5) }

    // What stands in the outputs.
    ensures prefixes { (request : Request) (files : Slot → List ℕ) → Asks words.now request → Reads request files (D.state desk.old) →
        HasWritten request files (D.state desk.old) (D.state desk.new) }
    ensures untouched { (result ≡ 1) ⊎ (result ≡ 2) ⊎ (result ≡ 3) ⊎ (result ≡ 5) → SameDesign (D.state desk.old) (D.state desk.new) }
    ensures silent { (result ≡ 1) ⊎ (result ≡ 3) ⊎ (result ≡ 5) → D.state desk.new Console ≡ D.state desk.old Console }

    // Completeness.
    ensures complete { (request : Request) (files : Slot → List ℕ) → Asks words.now request → Reads request files (D.state desk.old) →
        HasNoFault request files → NoneRose (D.state desk.old) (D.state desk.new) → (result ≡ 0) ⊎ (result ≡ 5) }
    ensures bench { (request : BenchRequest) → Asks words.now (Bench request) →
        NoneRose (D.state desk.old) (D.state desk.new) → (result ≡ 0) ⊎ (result ≡ 5) }

    // The texts of the command.
    ensures done { result ≡ 0 → (request : Request) (files : Slot → List ℕ) → Asks words.now request → Reads request files (D.state desk.old) →
        HasDone request files (D.state desk.old) (D.state desk.new) }
{
    // The call does nothing; its contract is the law of made designs.
    made_law();
    status_of(run_words(alloc, words, desk))
}
