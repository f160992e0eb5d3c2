// The orders of a walk.

use case_files::CaseFault;
use run_timeline::{Range, Stops};
use std::alloc::Global;

/// What is done. The text of an order is a name, and numbers after it: `go_to 12`.
#[derive(Drop)]
pub enum Order {
    /// `stops`, with breakpoints and watched ranges for all that follows: addresses, and `START+LENGTH`, all in hexadecimal.
    Stops(Stops),
    Move(Move),
    /// `output_from PLACE`: what was written to the output since that place.
    OutputFrom(u32),
}

/// A move over the run.
#[derive(Clone, Copy)]
pub enum Move {
    /// `go_to PLACE`.
    To(u32),
    /// `step_on`, or `step_on COUNT` for so many, up to the first that isn't taken.
    StepOn(u32),
    /// `step_back`, in the same way.
    StepBack(u32),
    /// `run_on`: to the next hit, or to the end of the run.
    RunOn,
    /// `run_back`: to the last hit, or to the start of the run.
    RunBack,
    /// `part_on`: `run_on` in parts.
    PartOn,
    /// `part_back`: `run_back` in parts.
    PartBack,
}

/// The order that a text spells.
pub fn order_of(alloc: Global, text: &str) -> Result<Order, CaseFault> {
    let (name, rest) = text.split_once(' ').unwrap_or((text, ""));
    match name {
        "stops" => Ok(Order::Stops(stops_of(alloc, rest)?)),
        "output_from" => Ok(Order::OutputFrom(number_of(rest)?)),
        _ => Ok(Order::Move(move_of(name, rest)?)),
    }
}

fn move_of(name: &str, rest: &str) -> Result<Move, CaseFault> {
    match name {
        "go_to" => Ok(Move::To(number_of(rest)?)),
        "step_on" => Ok(Move::StepOn(count_of(rest)?)),
        "step_back" => Ok(Move::StepBack(count_of(rest)?)),
        "run_on" => Ok(Move::RunOn),
        "run_back" => Ok(Move::RunBack),
        "part_on" => Ok(Move::PartOn),
        "part_back" => Ok(Move::PartBack),
        _ => Err(CaseFault::Form),
    }
}

fn number_of(text: &str) -> Result<u32, CaseFault> {
    text.parse::<u32>().map_err(|_| CaseFault::Form)
}

// How many steps; one by default.
fn count_of(text: &str) -> Result<u32, CaseFault> {
    if text.is_empty() {
        return Ok(1);
    }
    number_of(text)
}

fn hexadecimal(digits: &str) -> Result<u32, CaseFault> {
    u32::from_str_radix(digits, 16).map_err(|_| CaseFault::Form)
}

/// The breakpoints and watched ranges of a text.
pub fn stops_of(alloc: Global, text: &str) -> Result<Stops, CaseFault> {
    let mut stops = Stops {
        addresses: Vec::new(alloc),
        ranges: Vec::new(alloc),
    };
    for word in text.split(' ') {
        if !word.is_empty() {
            add(&mut stops, word)?;
        }
    }
    Ok(stops)
}

// Adds a breakpoint, or a watched range.
fn add(stops: &mut Stops, word: &str) -> Result<(), CaseFault> {
    let added = match word.split_once('+') {
        None => stops.addresses.push(hexadecimal(word)?).is_ok(),
        Some((start, length)) => stops.ranges.push(range_of(start, length)?).is_ok(),
    };
    if added {
        Ok(())
    } else {
        Err(CaseFault::Memory)
    }
}

fn range_of(start: &str, length: &str) -> Result<Range, CaseFault> {
    Ok(Range {
        start: hexadecimal(start)?,
        length: hexadecimal(length)?,
    })
}
