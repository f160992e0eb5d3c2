// How fast moves are, and how much memory they take.
ghost use Rattle.std.specs.Prelude.{◌≡◌, ◌<◌};
ghost use Rattle.rv_machine.specs.Prelude.{IsBlankOf};

use case_files::program_of;
use input_journal::Journal;
use run_timeline::{Hit, MARK_PAGE_BYTES, MARK_REST_BYTES, Range, Stops, Timeline};
use rv_machine::{State, Steps, advance};
use std::alloc::{AllocError, Global};
use std::marker::Brand;
use std::rt::CpuClock;
use std::sync::ledger::{Blank, Ledger};
use std::time::Duration;
use std::{fs, io};

// An address that no program maps.
const NOWHERE: u32 = 0xf000_0000;

const FAR: Range = Range {
    start: NOWHERE,
    length: 4,
};

/// Takes so many steps of a program that runs at least as long. If `how` is `break` or `watch`, that is a move forward
/// with so many marks, and then one backward. Their breakpoint or watched range is never hit. It prints how many
/// microseconds of processor time each took. It also prints the peak memory, after the timeline began and at the end.
/// The words are `HOW FILE COUNT MARKS`, or it does nothing and returns false.
pub fn measure(rt: &HostRuntime, words: &[String]) -> io::Result<bool> {
    let [how, file, count, marks] = words else {
        return Ok(false);
    };
    let bytes = fs::read(rt, file.as_str())?;
    let Ok(start) = program_of(rt.alloc(), file.as_str(), bytes.as_slice()) else {
        return Ok(false);
    };
    let (Ok(count), Ok(marks)) = (count.as_str().parse::<u32>(), marks.as_str().parse::<u32>())
    else {
        return Ok(false);
    };
    match stops_of(rt.alloc(), how.as_str())? {
        None => measure_plain::<Brand>(rt, start, count, Blank::new(1))?,
        Some(stops) => measure_moves::<Brand>(rt, start, count, marks, &stops, Blank::new(1))?,
    }
    Ok(true)
}

fn stops_of(alloc: Global, how: &str) -> Result<Option<Stops>, AllocError> {
    let mut stops = Stops {
        addresses: Vec::new(alloc),
        ranges: Vec::new(alloc),
    };
    match how {
        "break" => stops.addresses.push(NOWHERE)?,
        "watch" => stops.ranges.push(FAR)?,
        _ => return Ok(None),
    }
    Ok(Some(stops))
}

fn measure_plain<L: Ledger>(
    rt: &HostRuntime,
    mut state: State,
    count: u32,
    blank: Blank,
) -> io::Result<()>
    requires { IsBlankOf blank.name blank.parts L.name L.parts }
{
    let journal = Journal::none(rt.alloc());
    let mut steps = Steps::<L>::new(blank);
    let since = rt.thread_cpu_time()?;
    advance(&mut state, &journal, count, &mut steps);
    tell(rt, "advance", since)
}

fn measure_moves<L: Ledger>(
    rt: &HostRuntime,
    start: State,
    count: u32,
    marks: u32,
    stops: &Stops,
    blank: Blank,
) -> io::Result<()>
    requires { IsBlankOf blank.name blank.parts L.name L.parts }
{
    let budget = budget_for(marks, start.pages.count());
    let mut timeline = Timeline::begin(
        rt.alloc(),
        start,
        Journal::none(rt.alloc()),
        budget,
        count,
    )?;
    tell_memory(rt)?;
    move_over(rt, &mut timeline, &stops, &mut Steps::<L>::new(blank))?;
    tell_memory(rt)
}

// The bytes of so many marks of states with so many pages.
fn budget_for(marks: u32, pages: u32) -> u64 {
    let each = (pages as u64)
        .saturating_mul(MARK_PAGE_BYTES)
        .saturating_add(MARK_REST_BYTES);
    each.saturating_mul(marks as u64)
}

// Goes forward to the end of the run, and back.
fn move_over<L: Ledger>(
    rt: &HostRuntime,
    timeline: &mut Timeline,
    stops: &Stops,
    steps: &mut Steps<L>,
) -> io::Result<()> {
    let since = rt.thread_cpu_time()?;
    let hit = timeline.run_forward(stops, steps);
    tell(rt, "run_forward", since)?;
    tell_end(rt, hit, timeline)?;
    let since = rt.thread_cpu_time()?;
    let hit = timeline.run_back(stops, steps);
    tell(rt, "run_back", since)?;
    tell_end(rt, hit, timeline)
}

fn tell(rt: &HostRuntime, what: &str, since: Duration) -> io::Result<()> {
    let spent = rt.thread_cpu_time()?.saturating_sub(since).as_micros();
    println!(rt; "{what} {spent}")
}

fn tell_end(rt: &HostRuntime, hit: Option<Hit>, timeline: &Timeline) -> io::Result<()> {
    let place = timeline.place();
    println!(rt; "came to {place}, hit {hit:?}")
}

// Prints the system's line on the peak memory of this process.
fn tell_memory(rt: &HostRuntime) -> io::Result<()> {
    let text = fs::read_to_string(rt, "/proc/self/status")?;
    for line in text.as_str().lines() {
        if line.starts_with("VmHWM:") {
            println!(rt; "{line}")?;
        }
    }
    Ok(())
}
