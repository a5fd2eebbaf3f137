//! The contracts of `scan_job`.
ghost use Rattle.base_types.specs.declared.fault.Fault.{Fault};
ghost use Rattle.desk_io.specs.Causes.{SameCounts, SomeRose};
ghost use Rattle.desk_io.specs.Desk.{AllUnopened, IsInput, IsOutput};
ghost use Rattle.desk_io.specs.Names.{AllowsNames};
ghost use Rattle.desk_io.specs.declared.slot.Slot.{Slot};
ghost use Rattle.desk_io.specs.declared.slot.Slot.TheVariants.{Console};
ghost use Rattle.scan_job.specs.Faults.{HasNoFault, IsRunFault, OneFaultLaw};
ghost use Rattle.scan_job.specs.Requests.{Asks, Bench, Request, names_of, order_of};
ghost use Rattle.scan_job.specs.TopCall.{AllClosed, AllRead, HasDone, HasRefused, HasWritten, NoneOpen, NoneRose, Reads, SameDesign, SameEverywhere, SameUnused, SaysNothing};
ghost use Rattle.scan_job.specs.declared.commands.bench.BenchRequest.{BenchRequest};
ghost use Rattle.scan_words.specs.Written.{Says};
ghost use Rattle.scan_words.specs.declared.order.Order.{Order};
ghost use Rattle.std.specs.Prelude.{IsTrue, List, ℕ, ◌<◌, ◌≡◌, ◌≢◌, ◌≤◌, ◌⊎◌};

use base_types::Word;
use desk_io::Desk;
use std::alloc::Global;

/// As `scan_job::run`.
pub fn run<D: Desk>(alloc: Global, words: &[Word], desk: &mut D) -> u8
    requires unopened { AllUnopened (D.state desk.old) }
    requires allowed { (request : Request) → Asks words.now request → AllowsNames (names_of request) (D.allows desk.old) }

    ensures status { result ≤ 5 }

    // Words and slots.
    ensures no_form { result ≡ 1 → SaysNothing words.now }
    ensures form { result ≢ 1 → result ≢ 5 → ((request : Request) × Asks words.now request) }
    ensures asked { (order : Order) → Says words.now order → ((request : Request) × (order_of request ≡ order)) }
    ensures unopened { SaysNothing words.now → SameEverywhere (D.state desk.old) (D.state desk.new) }
    ensures slots { (request : Request) → Asks words.now request → SameUnused request (D.state desk.old) (D.state desk.new) }
    ensures closed { result ≡ 0 → (request : Request) → Asks words.now request → AllClosed request (D.state desk.new) }
    ensures none_open { (result ≡ 0) ⊎ (result ≡ 2) → NoneOpen (D.state desk.new) }
    ensures read { result ≡ 0 → (request : Request) → Asks words.now request → AllRead request (D.state desk.new) }

    // Refusals: only where, and wherever, the files have a fault.
    ensures refusal { result ≡ 2 → (request : Request) (files : Slot → List ℕ) → Asks words.now request → Reads request files (D.state desk.old) →
        HasRefused request files (D.state desk.old) (D.state desk.new) }
    ensures refusal_counts { (result ≡ 0) ⊎ (result ≡ 2) → SameCounts (D.state desk.old) (D.state desk.new) }
    ensures refuses { (request : Request) (files : Slot → List ℕ) → Asks words.now request → Reads request files (D.state desk.old) →
        (fault : Fault) → IsRunFault request files fault → NoneRose (D.state desk.old) (D.state desk.new) → (result ≡ 2) ⊎ (result ≡ 5) }

    // Causes of faults of the outside.
    ensures input_fault { result ≡ 3 → SomeRose IsInput (D.state desk.old) (D.state desk.new) }
    ensures output_fault { result ≡ 4 → SomeRose IsOutput (D.state desk.old) (D.state desk.new) }
    ensures input_fault_answered { (slot : Slot) → IsInput slot →
        (D.state desk.old slot).faults < (D.state desk.new slot).faults → (result ≡ 3) ⊎ (result ≡ 5) }
    ensures output_fault_answered { (slot : Slot) → IsOutput slot →
        (D.state desk.old slot).faults < (D.state desk.new slot).faults → (result ≡ 4) ⊎ (result ≡ 5) }

    // What stands in the outputs.
    ensures prefixes { (request : Request) (files : Slot → List ℕ) → Asks words.now request → Reads request files (D.state desk.old) →
        HasWritten request files (D.state desk.old) (D.state desk.new) }
    ensures untouched { (result ≡ 1) ⊎ (result ≡ 2) ⊎ (result ≡ 3) ⊎ (result ≡ 5) → SameDesign (D.state desk.old) (D.state desk.new) }
    ensures silent { (result ≡ 1) ⊎ (result ≡ 3) ⊎ (result ≡ 5) → D.state desk.new Console ≡ D.state desk.old Console }

    // Completeness.
    ensures complete { (request : Request) (files : Slot → List ℕ) → Asks words.now request → Reads request files (D.state desk.old) →
        HasNoFault request files → NoneRose (D.state desk.old) (D.state desk.new) → (result ≡ 0) ⊎ (result ≡ 5) }
    ensures bench { (request : BenchRequest) → Asks words.now (Bench request) →
        NoneRose (D.state desk.old) (D.state desk.new) → (result ≡ 0) ⊎ (result ≡ 5) }

    // The texts of the command.
    ensures done { result ≡ 0 → (request : Request) (files : Slot → List ℕ) → Asks words.now request → Reads request files (D.state desk.old) →
        HasDone request files (D.state desk.old) (D.state desk.new) }
{
    scan_job::run(alloc, words, desk)
}

/// As `scan_job::one_fault_law`.
pub fn one_fault_law()
    ensures law { OneFaultLaw }
{
    scan_job::one_fault_law()
}

/// As `scan_job::run`, with another clause `allowed`.
pub fn run_anywhere<D: Desk>(alloc: Global, words: &[Word], desk: &mut D) -> u8
    requires unopened { AllUnopened (D.state desk.old) }
    requires allowed { (slot : Slot) (name : List ℕ) → IsTrue (D.allows desk.old slot name) }

    ensures status { result ≤ 5 }

    // Words and slots.
    ensures no_form { result ≡ 1 → SaysNothing words.now }
    ensures form { result ≢ 1 → result ≢ 5 → ((request : Request) × Asks words.now request) }
    ensures asked { (order : Order) → Says words.now order → ((request : Request) × (order_of request ≡ order)) }
    ensures unopened { SaysNothing words.now → SameEverywhere (D.state desk.old) (D.state desk.new) }
    ensures slots { (request : Request) → Asks words.now request → SameUnused request (D.state desk.old) (D.state desk.new) }
    ensures closed { result ≡ 0 → (request : Request) → Asks words.now request → AllClosed request (D.state desk.new) }
    ensures none_open { (result ≡ 0) ⊎ (result ≡ 2) → NoneOpen (D.state desk.new) }
    ensures read { result ≡ 0 → (request : Request) → Asks words.now request → AllRead request (D.state desk.new) }

    // Refusals: only where, and wherever, the files have a fault.
    ensures refusal { result ≡ 2 → (request : Request) (files : Slot → List ℕ) → Asks words.now request → Reads request files (D.state desk.old) →
        HasRefused request files (D.state desk.old) (D.state desk.new) }
    ensures refusal_counts { (result ≡ 0) ⊎ (result ≡ 2) → SameCounts (D.state desk.old) (D.state desk.new) }
    ensures refuses { (request : Request) (files : Slot → List ℕ) → Asks words.now request → Reads request files (D.state desk.old) →
        (fault : Fault) → IsRunFault request files fault → NoneRose (D.state desk.old) (D.state desk.new) → (result ≡ 2) ⊎ (result ≡ 5) }

    // Causes of faults of the outside.
    ensures input_fault { result ≡ 3 → SomeRose IsInput (D.state desk.old) (D.state desk.new) }
    ensures output_fault { result ≡ 4 → SomeRose IsOutput (D.state desk.old) (D.state desk.new) }
    ensures input_fault_answered { (slot : Slot) → IsInput slot →
        (D.state desk.old slot).faults < (D.state desk.new slot).faults → (result ≡ 3) ⊎ (result ≡ 5) }
    ensures output_fault_answered { (slot : Slot) → IsOutput slot →
        (D.state desk.old slot).faults < (D.state desk.new slot).faults → (result ≡ 4) ⊎ (result ≡ 5) }

    // What stands in the outputs.
    ensures prefixes { (request : Request) (files : Slot → List ℕ) → Asks words.now request → Reads request files (D.state desk.old) →
        HasWritten request files (D.state desk.old) (D.state desk.new) }
    ensures untouched { (result ≡ 1) ⊎ (result ≡ 2) ⊎ (result ≡ 3) ⊎ (result ≡ 5) → SameDesign (D.state desk.old) (D.state desk.new) }
    ensures silent { (result ≡ 1) ⊎ (result ≡ 3) ⊎ (result ≡ 5) → D.state desk.new Console ≡ D.state desk.old Console }

    // Completeness.
    ensures complete { (request : Request) (files : Slot → List ℕ) → Asks words.now request → Reads request files (D.state desk.old) →
        HasNoFault request files → NoneRose (D.state desk.old) (D.state desk.new) → (result ≡ 0) ⊎ (result ≡ 5) }
    ensures bench { (request : BenchRequest) → Asks words.now (Bench request) →
        NoneRose (D.state desk.old) (D.state desk.new) → (result ≡ 0) ⊎ (result ≡ 5) }

    // The texts of the command.
    ensures done { result ≡ 0 → (request : Request) (files : Slot → List ℕ) → Asks words.now request → Reads request files (D.state desk.old) →
        HasDone request files (D.state desk.old) (D.state desk.new) }
{
    scan_job::run(alloc, words, &mut *desk)
}
