// A command is read by its form: a line for each of its words and operands, in their order.
ghost use Rattle.std.specs.Prelude.{◌≡◌, ℕ, List, Option, map, codes, option_map};
ghost use Rattle.line_texts.specs.Prelude.{GivesSome};
ghost use Rattle.requests.specs.Request.{kind_word};
ghost use Rattle.requests.specs.declared.question.Question.TheVariants as about;
ghost use Rattle.requests.specs.Forms.{Place, Value, Takes, TakesAll, ask_places, numbered, addressed, run_form, plan_form, periodic_form, check_form, certify_form, cost_form, ask_form, find_form, asm_form, disasm_form, console_form, demo_form, form_taken, command_of};
ghost use Rattle.requests.specs.RequestModel.{as_command};

use crate::kind::PlanKind;
use crate::operands::Operands;
use crate::question::Question;
use crate::request::{
    Ask, Asm, Certify, Command, Console, Demo, Disasm, Find, PlanFor, PlanPeriodic, Run,
    RunBackward, ScheduleFor,
};

/// The command that the words after the options are.
pub fn read_command(words: &[Vec<u8>]) -> Option<Command<'_>>
    ensures { GivesSome as_command result (command_of (map (λ w. w.items) words.now)) }
{
    read_run(words)
        .or(read_plan(words, PlanKind::Revolve))
        .or(read_plan(words, PlanKind::Multistage))
        .or(read_plan(words, PlanKind::Disk))
        .or(read_plan(words, PlanKind::Hrevolve))
        .or(read_plan_periodic(words))
        .or(read_check(words))
        .or(read_certify(words))
        .or(read_cost(words))
        .or(read_ask_state(words))
        .or(read_ask_last_write(words))
        .or(read_ask_last_change(words))
        .or(read_find(words))
        .or(read_asm(words))
        .or(read_disasm(words))
        .or(read_console(words))
        .or(read_demo(words))
}

fn read_run(words: &[Vec<u8>]) -> Option<Command<'_>>
    ensures { GivesSome as_command result (form_taken run_form (map (λ w. w.items) words.now)) }
{
    let mut words = Operands::of(words);
    words.word(b"run");
    let program = words.name();
    let journal = words.name_or_dash();
    let book = words.name();
    let schedule = words.schedule();
    let steps = words.number();
    let run = Run {
        program,
        journal,
        book,
        steps,
    };
    words.finish(Command::Run(RunBackward { run, schedule }))
}

fn kind_word(kind: PlanKind) -> &'static [u8]
    ensures { result.now ≡ kind_word kind }
{
    match kind {
        PlanKind::Revolve => b"revolve",
        PlanKind::Multistage => b"multistage",
        PlanKind::Disk => b"disk",
        PlanKind::Hrevolve => b"hrevolve",
    }
}

fn read_plan(words: &[Vec<u8>], kind: PlanKind) -> Option<Command<'_>>
    ensures { GivesSome as_command result (form_taken (plan_form kind) (map (λ w. w.items) words.now)) }
{
    let mut words = Operands::of(words);
    words.word(b"plan");
    words.word(kind_word(kind));
    let book = words.name();
    let steps = words.number();
    words.finish(Command::Plan(PlanFor { kind, book, steps }))
}

fn read_plan_periodic(words: &[Vec<u8>]) -> Option<Command<'_>>
    ensures { GivesSome as_command result (form_taken periodic_form (map (λ w. w.items) words.now)) }
{
    let mut words = Operands::of(words);
    words.word(b"plan");
    words.word(b"periodic");
    let book = words.name();
    let steps = words.number();
    let period = words.number();
    words.finish(Command::PlanPeriodic(PlanPeriodic {
        book,
        steps,
        period,
    }))
}

fn read_check(words: &[Vec<u8>]) -> Option<Command<'_>>
    ensures { GivesSome as_command result (form_taken check_form (map (λ w. w.items) words.now)) }
{
    let mut words = Operands::of(words);
    words.word(b"check");
    let book = words.name();
    let schedule = words.schedule_name();
    let steps = words.number();
    words.finish(Command::Check(ScheduleFor {
        book,
        schedule,
        steps,
    }))
}

fn read_certify(words: &[Vec<u8>]) -> Option<Command<'_>>
    ensures { GivesSome as_command result (form_taken certify_form (map (λ w. w.items) words.now)) }
{
    let mut words = Operands::of(words);
    words.word(b"certify");
    let book = words.name();
    let schedule = words.schedule_name();
    let certificate = words.name();
    let steps = words.number();
    words.finish(Command::Certify(Certify {
        book,
        schedule,
        certificate,
        steps,
    }))
}

fn read_cost(words: &[Vec<u8>]) -> Option<Command<'_>>
    ensures { GivesSome as_command result (form_taken cost_form (map (λ w. w.items) words.now)) }
{
    let mut words = Operands::of(words);
    words.word(b"cost");
    let book = words.name();
    let schedule = words.schedule_name();
    let steps = words.number();
    words.finish(Command::Cost(ScheduleFor {
        book,
        schedule,
        steps,
    }))
}

// The first words of a question: its kind, the run, and the schedule.
fn read_asked<'a>(words: &mut Operands<'a>, word: &[u8]) -> (Run<'a>, &'a [u8])
    ensures { (p : Place) (v : Value p) (last : Option (List (List ℕ))) → Takes p words.new v last → TakesAll (ask_places word.now p) words.old
        (tt, (tt, (result.0.program.now, (option_map (λ name. name.now) result.0.journal, (result.0.book.now, (result.1.now, (result.0.steps, (v, tt)))))))) last }
{
    words.word(b"ask");
    words.word(word);
    let program = words.name();
    let journal = words.name_or_dash();
    let book = words.name();
    let schedule = words.schedule_name();
    let steps = words.number();
    let run = Run {
        program,
        journal,
        book,
        steps,
    };
    (run, schedule)
}

fn read_ask_state(words: &[Vec<u8>]) -> Option<Command<'_>>
    ensures { GivesSome as_command result (form_taken (ask_form (codes "state") numbered about.State) (map (λ w. w.items) words.now)) }
{
    let mut words = Operands::of(words);
    let (run, schedule) = read_asked(&mut words, b"state");
    let question = Question::State(words.number());
    words.finish(Command::Ask(Ask {
        question,
        run,
        schedule,
    }))
}

fn read_ask_last_write(words: &[Vec<u8>]) -> Option<Command<'_>>
    ensures { GivesSome as_command result (form_taken (ask_form (codes "last-write") addressed about.LastWrite) (map (λ w. w.items) words.now)) }
{
    let mut words = Operands::of(words);
    let (run, schedule) = read_asked(&mut words, b"last-write");
    let question = Question::LastWrite(words.address());
    words.finish(Command::Ask(Ask {
        question,
        run,
        schedule,
    }))
}

fn read_ask_last_change(words: &[Vec<u8>]) -> Option<Command<'_>>
    ensures { GivesSome as_command result (form_taken (ask_form (codes "last-change") addressed about.LastChange) (map (λ w. w.items) words.now)) }
{
    let mut words = Operands::of(words);
    let (run, schedule) = read_asked(&mut words, b"last-change");
    let question = Question::LastChange(words.address());
    words.finish(Command::Ask(Ask {
        question,
        run,
        schedule,
    }))
}

fn read_find(words: &[Vec<u8>]) -> Option<Command<'_>>
    ensures { GivesSome as_command result (form_taken find_form (map (λ w. w.items) words.now)) }
{
    let mut words = Operands::of(words);
    words.word(b"ask");
    words.word(b"find");
    let program = words.name();
    let journal = words.name_or_dash();
    let steps = words.number();
    let digest = words.digest();
    words.finish(Command::Find(Find {
        program,
        journal,
        steps,
        digest,
    }))
}

fn read_asm(words: &[Vec<u8>]) -> Option<Command<'_>>
    ensures { GivesSome as_command result (form_taken asm_form (map (λ w. w.items) words.now)) }
{
    let mut words = Operands::of(words);
    words.word(b"asm");
    let source = words.name();
    words.finish(Command::Asm(Asm { source }))
}

fn read_disasm(words: &[Vec<u8>]) -> Option<Command<'_>>
    ensures { GivesSome as_command result (form_taken disasm_form (map (λ w. w.items) words.now)) }
{
    let mut words = Operands::of(words);
    words.word(b"disasm");
    let program = words.name();
    words.finish(Command::Disasm(Disasm { program }))
}

fn read_console(words: &[Vec<u8>]) -> Option<Command<'_>>
    ensures { GivesSome as_command result (form_taken console_form (map (λ w. w.items) words.now)) }
{
    let mut words = Operands::of(words);
    words.word(b"console");
    let program = words.name();
    let journal = words.name_or_dash();
    let book = words.name();
    let script = words.name();
    let steps = words.number();
    words.finish(Command::Console(Console {
        program,
        journal,
        book,
        script,
        steps,
    }))
}

fn read_demo(words: &[Vec<u8>]) -> Option<Command<'_>>
    ensures { GivesSome as_command result (form_taken demo_form (map (λ w. w.items) words.now)) }
{
    let mut words = Operands::of(words);
    words.word(b"demo");
    let number = words.number();
    let steps = words.number();
    let slots = words.number();
    words.finish(Command::Demo(Demo {
        number,
        steps,
        slots,
    }))
}
