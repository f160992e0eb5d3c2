// The top call: `reversal` does what the words of a command line ask for.
ghost use Rattle.std.specs.Prelude.{◌≡◌, ◌≢◌, ◌⊎◌, ◌↔◌, ℕ, ◌++◌, take, IfOk, IfErr};
ghost use Rattle.std.specs.List.{AllByRecursion};
ghost use Rattle.keepers.specs.Prelude.{Rose};
ghost use Rattle.reverse_runner.specs.Prelude.{rooms_by, slot_counts};
ghost use Rattle.endings.specs.declared.outcome.Outcome.{Outcome as AnOutcome};
ghost use Rattle.endings.specs.Prelude.{no_memory, unreadable, ended_of, status_of};
ghost use Rattle.requests.specs.Prelude.{Request as ARequest, Says, words_of, numbers, IsWithin, RefusesWords, Asks, inputs_of, names, FailsAtInput, request_of};
ghost use Rattle.reversal.specs.Prelude.{Decision, accept, refuse, Begins, BeginsBy, course_of, Comes, StayInPlace, KeepsOthers, HaveRoomsFor, EndsBy, IsOfJob, Job as AJob, moment, HaltsShowing, job_of, CanBeDone, KeepersHaveRoom};

use crate::decision::decide;
use crate::job::Job;
use endings::{Ended, Outcome};
use keepers::{Inputs, Keeper, Sink};
use requests::{Request, Words, read_inputs, read_request};
use rv_machine::Steps;
use std::alloc::{AllocError, Global};
use std::sync::ledger::Ledger;
use std::thread::Threads;

/// Does what the words ask for, and returns how it ended. The words mean a request. The request and its inputs lead to
/// a decision: a refusal or a job. A job is done deed by deed.
pub fn reversal<R: Threads + Sync, I: Inputs, K: Keeper, O: Sink, L: Ledger>(
    rt: &R,
    alloc: Global,
    words: &Words,
    inputs: &mut I,
    keepers: &mut Vec<K>,
    out: &mut O,
    steps: &mut Steps<L>,
) -> Ended
    // Status 2 occurs exactly if the words mean no request.
    ensures says { (result.status ≡ 2) ↔ ((r : ARequest) → Says (words_of words.now) r → ⊥) }

    // Words that are no request, or have a number out of bounds, are refused before any input is read.
    ensures unread { (o : AnOutcome) → RefusesWords (words_of words.now) o → (result ≡ ended_of o) × (inputs.new ≡ inputs.old) }

    // The requested names are the first few of the request's inputs, perhaps none, in the order of the words.
    ensures asks { (r : ARequest) → Asks (words_of words.now) r → (k : ℕ) × (I.asked inputs.new ≡ I.asked inputs.old ++ take k (names (inputs_of r.command))) }

    // Status 3 names the input that can't be read. Up to the count's end, the inputs' count of faults rises exactly
    // then.
    ensures input { (r : ARequest) → Asks (words_of words.now) r → result.status ≡ 3 →
        (result ≡ ended_of (unreadable result.place)) × FailsAtInput (inputs_of r.command) (I.told inputs.old) result.place (I.asked inputs.old) (I.asked inputs.new) }
    ensures input_cause { result.status ≡ 3 → Rose (I.fault_count inputs.old) (I.fault_count inputs.new) }
    ensures input_quiet { result.status ≢ 3 → I.fault_count inputs.new ≡ I.fault_count inputs.old }

    // Unless an input failed or memory ran out, there was a decision, and the call ended by it.
    ensures decided { (r : ARequest) → Asks (words_of words.now) r → result.status ≢ 3 → result.status ≢ 17 → (d : Decision)
        × Comes r (I.told inputs.old) (I.asked inputs.old) (I.asked inputs.new) (slot_counts K.Storage keepers.old.items) d
        × KeepsOthers K.slot_count K.place d keepers.old.items keepers.new.items
        × EndsBy d result
        (moment O.Sink K.Storage out.old keepers.old.items steps.old)
        (moment O.Sink K.Storage out.new keepers.new.items steps.new)
        × BeginsBy d }

    // If memory runs out, nothing was done, or a part of a decided job. Over keepers with room it is nothing in a run.
    ensures memory { result.status ≡ 17 → (result ≡ ended_of no_memory) × (((out.new ≡ out.old) × (keepers.new ≡ keepers.old) × (steps.new ≡ steps.old))
        ⊎ ((r : ARequest) × Asks (words_of words.now) r × (job : AJob)
        × Comes r (I.told inputs.old) (I.asked inputs.old) (I.asked inputs.new) (slot_counts K.Storage keepers.old.items) (accept job)
        × Begins job
        × KeepsOthers K.slot_count K.place (accept job) keepers.old.items keepers.new.items
        × HaltsShowing (course_of job)
        (moment O.Sink K.Storage out.old keepers.old.items steps.old)
        (moment O.Sink K.Storage out.new keepers.new.items steps.new)
        × (HaveRoomsFor job (rooms_by K.Storage keepers.old.items) → (out.new ≡ out.old) × (keepers.new ≡ keepers.old) × (steps.new ≡ steps.old)))) }

    // Each keeper has the same slots, in the same place.
    ensures stay { StayInPlace K.slot_count K.place keepers.old.items keepers.new.items }

    // A refusal leaves the sink, the keepers and the count of steps unchanged.
    ensures untouched { (IsOfJob result.status → ⊥) → (out.new ≡ out.old) × (keepers.new ≡ keepers.old) × (steps.new ≡ steps.old) }
{
    let Some(request) = read_request(&words.list) else {
        return Ended::from(Outcome::Words);
    };
    if let Some(refusal) = request.refusal() {
        return Ended::from(refusal);
    }
    match prepared(rt, alloc, &request, inputs, keepers) {
        Ok(job) => {
            job.begins();
            Ended::from(job.work(rt, alloc, keepers, out, steps))
        }
        Err(refusal) => Ended::from(refusal),
    }
}

// The job of a request by its inputs and the slots of the keepers. The request's numbers are within their bounds.
fn prepared<R: Threads + Sync, I: Inputs, K: Keeper>(
    rt: &R,
    alloc: Global,
    request: &Request<'_>,
    inputs: &mut I,
    keepers: &[K],
) -> Result<Job, Outcome>
    requires { AllByRecursion IsWithin (numbers (request_of request.now)) }
    ensures comes { IfOk result (λ job. Comes (request_of request.now) (I.told inputs.old) (I.asked inputs.old) (I.asked inputs.new)
        (slot_counts K.Storage keepers.now) (accept (job_of job))) }
    ensures can_be_done { IfOk result CanBeDone }
    ensures room { IfOk result (λ job. KeepersHaveRoom job (slot_counts K.Storage keepers.now)) }
    ensures refused { IfErr result (λ e. ((place : ℕ) × (e ≡ unreadable place)
        × FailsAtInput (inputs_of (request_of request.now).command) (I.told inputs.old) place (I.asked inputs.old) (I.asked inputs.new))
        ⊎ (e ≡ no_memory)
        ⊎ ((status_of e ≢ 3) × (status_of e ≢ 17) × (status_of e ≢ 2) × (status_of e ≢ 12) × (status_of e ≢ 14)
        × Comes (request_of request.now) (I.told inputs.old) (I.asked inputs.old) (I.asked inputs.new) (slot_counts K.Storage keepers.now) (refuse e))) }
    ensures asked { (k : ℕ) × (I.asked inputs.new ≡ I.asked inputs.old ++ take k (names (inputs_of (request_of request.now).command))) }
    ensures quiet { IfOk result (λ _. I.fault_count inputs.new ≡ I.fault_count inputs.old) }
    ensures cause { IfErr result (λ e. status_of e ≡ 3 → Rose (I.fault_count inputs.old) (I.fault_count inputs.new)) }
    ensures no_cause { IfErr result (λ e. status_of e ≢ 3 → I.fault_count inputs.new ≡ I.fault_count inputs.old) }
{
    let mut loaded = read_inputs(alloc, &request.command, inputs)?;
    let counts = slot_counts(alloc, keepers)?;
    decide(rt, alloc, request, &mut loaded, &counts)
}

// The number of slots of each keeper.
fn slot_counts<K: Keeper>(alloc: Global, keepers: &[K]) -> Result<Vec<u32>, AllocError>
    ensures { IfOk result (λ counts. counts.items ≡ slot_counts K.Storage keepers.now) }
{
    let mut counts = Vec::with_capacity(alloc, keepers.len())?;
    for keeper in keepers {
        counts.push(keeper.slots())?;
    }
    Ok(counts)
}
