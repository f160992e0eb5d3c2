// The inputs of a request, read in the order of the words.
ghost use Rattle.std.specs.Prelude.{map};
ghost use Rattle.requests.specs.Inputs.{inputs_of};
ghost use Rattle.requests.specs.InputOutcome.{input_of, ReadsInput, ReadsInputs};
ghost use Rattle.requests.specs.Request.{run as run_command, check as check_command, find as find_command, console as console_command};
ghost use Rattle.requests.specs.RequestModel.{as_schedule, as_run, as_schedule_for, as_find, as_console, as_command};

use crate::input_kind::InputKind;
use crate::loaded::Loaded;
use crate::request::{Command, Console, Find, Run, ScheduleFor};
use crate::schedule::Schedule;
use endings::Outcome;
use keepers::{InputFault, Inputs, Whole};
use std::alloc::Global;

/// An input that is wanted: what it is read as, and its name.
#[derive(Clone, Copy)]
pub struct Input<'a> {
    pub kind: InputKind,
    pub name: &'a [u8],
}

/// Reads the inputs of a command in the order of the words. If one can't be read or is too long, it is refused, and the
/// later ones aren't read.
pub fn read_inputs<I: Inputs>(
    alloc: Global,
    command: &Command<'_>,
    inputs: &mut I,
) -> Result<Loaded, Outcome>
    ensures { ReadsInputs I.Inputs (inputs_of (as_command command.now)) result inputs.old inputs.new }
{
    match command {
        Command::Run(backward) => read_run_inputs(alloc, &backward.run, backward.schedule, inputs),
        Command::Plan(plan) => read_all(alloc, &[InputKind::Book.named(plan.book)], inputs),
        Command::PlanPeriodic(plan) => read_all(alloc, &[InputKind::Book.named(plan.book)], inputs),
        Command::Check(check) => read_schedule_inputs(alloc, check, inputs),
        Command::Certify(certify) => {
            let wanted = [
                InputKind::Book.named(certify.book),
                InputKind::Schedule.named(certify.schedule),
                InputKind::Certificate.named(certify.certificate),
            ];
            read_all(alloc, &wanted, inputs)
        }
        Command::Cost(cost) => read_schedule_inputs(alloc, cost, inputs),
        Command::Ask(ask) => {
            let schedule = Schedule::Named(ask.schedule);
            read_run_inputs(alloc, &ask.run, schedule, inputs)
        }
        Command::Find(find) => read_find_inputs(alloc, find, inputs),
        Command::Asm(asm) => read_all(alloc, &[InputKind::Source.named(asm.source)], inputs),
        Command::Disasm(disasm) => read_all(
            alloc,
            &[InputKind::Words.named(disasm.program)],
            inputs,
        ),
        Command::Console(console) => read_console_inputs(alloc, console, inputs),
        Command::Demo(_) => read_all(alloc, &[], inputs),
    }
}

// Reads the inputs of a run by a schedule, which is read if it has a name.
fn read_run_inputs<I: Inputs>(
    alloc: Global,
    run: &Run<'_>,
    schedule: Schedule<'_>,
    inputs: &mut I,
) -> Result<Loaded, Outcome>
    ensures { ReadsInputs I.Inputs (inputs_of (run_command (record { run = as_run run.now; schedule = as_schedule schedule.entry })))
        result inputs.old inputs.new }
{
    let program = InputKind::Program.named(run.program);
    let book = InputKind::Book.named(run.book);
    match (run.journal, schedule) {
        (Some(name), Schedule::Named(schedule)) => {
            let wanted = [
                program,
                InputKind::Journal.named(name),
                book,
                InputKind::Schedule.named(schedule),
            ];
            read_all(alloc, &wanted, inputs)
        }
        (Some(name), Schedule::Made) => {
            read_all(
                alloc,
                &[program, InputKind::Journal.named(name), book],
                inputs,
            )
        }
        (None, Schedule::Named(schedule)) => {
            read_all(
                alloc,
                &[program, book, InputKind::Schedule.named(schedule)],
                inputs,
            )
        }
        (None, Schedule::Made) => read_all(alloc, &[program, book], inputs),
    }
}

// Reads the book and the schedule for it.
fn read_schedule_inputs<I: Inputs>(
    alloc: Global,
    named: &ScheduleFor<'_>,
    inputs: &mut I,
) -> Result<Loaded, Outcome>
    ensures { ReadsInputs I.Inputs (inputs_of (check_command (as_schedule_for named.now))) result inputs.old inputs.new }
{
    let book = InputKind::Book.named(named.book);
    let schedule = InputKind::Schedule.named(named.schedule);
    read_all(alloc, &[book, schedule], inputs)
}

// Reads the inputs of a search of a run.
fn read_find_inputs<I: Inputs>(
    alloc: Global,
    find: &Find<'_>,
    inputs: &mut I,
) -> Result<Loaded, Outcome>
    ensures { ReadsInputs I.Inputs (inputs_of (find_command (as_find find.now))) result inputs.old inputs.new }
{
    let program = InputKind::Program.named(find.program);
    match find.journal {
        Some(name) => read_all(alloc, &[program, InputKind::Journal.named(name)], inputs),
        None => read_all(alloc, &[program], inputs),
    }
}

// Reads the inputs of a console over a run.
fn read_console_inputs<I: Inputs>(
    alloc: Global,
    console: &Console<'_>,
    inputs: &mut I,
) -> Result<Loaded, Outcome>
    ensures { ReadsInputs I.Inputs (inputs_of (console_command (as_console console.now))) result inputs.old inputs.new }
{
    let program = InputKind::Program.named(console.program);
    let book = InputKind::Book.named(console.book);
    let script = InputKind::Script.named(console.script);
    match console.journal {
        Some(name) => {
            let wanted = [program, InputKind::Journal.named(name), book, script];
            read_all(alloc, &wanted, inputs)
        }
        None => read_all(alloc, &[program, book, script], inputs),
    }
}

// Reads the wanted inputs, one after the other.
fn read_all<I: Inputs>(
    alloc: Global,
    wanted: &[Input<'_>],
    inputs: &mut I,
) -> Result<Loaded, Outcome>
    ensures { ReadsInputs I.Inputs (map input_of wanted.now) result inputs.old inputs.new }
{
    let mut loaded = Loaded::new(alloc);
    for (i, input) in wanted.iter().enumerate() {
        let bytes = read_input(alloc, i as u64 + 1, input, inputs)?;
        loaded.put(input.kind, bytes);
    }
    Ok(loaded)
}

/// Reads an input. A refusal names it by its place among those that are wanted.
pub fn read_input<I: Inputs>(
    alloc: Global,
    place: u64,
    input: &Input<'_>,
    inputs: &mut I,
) -> Result<Vec<u8>, Outcome>
    ensures { ReadsInput I.Inputs place (input_of input.now) result inputs.old inputs.new }
{
    let limit = input.kind.limit();
    let mut bytes = Vec::new(alloc);
    match inputs.read(input.name, limit, &mut bytes) {
        Ok(Whole::All) => Ok(bytes),
        Ok(Whole::Longer) => Err(Outcome::too_long(place, limit)),
        Err(InputFault::Failed) => Err(Outcome::Input { place }),
        Err(InputFault::Memory) => Err(Outcome::Memory),
    }
}
