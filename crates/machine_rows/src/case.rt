// A case: a state, recorded input, and how many steps are taken.
ghost use Rattle.std.specs.Prelude.{◌≡◌, ◌<◌, ◌^◌, IsTrue, IfOk, IfSome, slice_index};
ghost use Rattle.std.specs.List.{All};
ghost use Rattle.std.specs.List.Sorted.{IsStrictlyIncreasing};

use case_files::CaseFault;
use input_journal::{Journal, read_journal};
use rv_machine::{State, Status};
use rv_pages::Pages;
use serde_json::Value;
use std::alloc::Global;

/// A state whose pc is 0x10000, its recorded input, and how many steps it takes.
#[derive(Drop)]
pub struct Case {
    pub state: State,
    pub journal: Journal,
    pub steps: u32,
}

/// The case of a value, by its members. `pages`: the numbers of the pages in ascending order. `words`: words of the
/// memory by their addresses. `x`: registers by their numbers. `journal`: the bytes of a file of recorded input.
/// `item`, `offset`: its place. `steps`: the number of steps. Addresses, words, registers and bytes are hexadecimal. A
/// missing member is 0, or empty.
pub fn case_of(alloc: Global, value: &Value) -> Result<Case, CaseFault> {
    Ok(Case {
        state: State {
            pc: 0x10000,
            x: registers_of(value)?,
            status: Status::Running,
            item: number_of(value, "item")?,
            offset: number_of(value, "offset")?,
            written: 0,
            pages: memory_of(alloc, value)?,
        },
        journal: journal_of(alloc, value)?,
        steps: number_of(value, "steps")?,
    })
}

// A member that is a number; 0 if it is missing.
fn number_of(value: &Value, name: &str) -> Result<u32, CaseFault> {
    match value.get(name) {
        None => Ok(0),
        Some(member) => word_of_number(member),
    }
}

fn word_of_number(value: &Value) -> Result<u32, CaseFault> {
    let number = value.as_u64().ok_or(CaseFault::Form)?;
    u32::try_from(number).map_err(|_| CaseFault::Form)
}

/// A word in hexadecimal.
pub fn hexadecimal(digits: &str) -> Option<u32> {
    u32::from_str_radix(digits, 16).ok()
}

fn hexadecimal_of(value: &Value) -> Result<u32, CaseFault> {
    value.as_str().and_then(hexadecimal).ok_or(CaseFault::Form)
}

// The registers. A missing one is 0, and x0 is 0.
fn registers_of(value: &Value) -> Result<[u32; 32], CaseFault>
    ensures { IfOk result (λ x. slice_index x 0 ≡ 0) }
{
    let mut x = [0; 32];
    if let Some(members) = value.get("x").and_then(Value::as_object) {
        for (name, member) in members {
            let register = register_of(name.as_str()).ok_or(CaseFault::Form)?;
            x[register] = hexadecimal_of(member)?;
        }
    }
    x[0] = 0;
    Ok(x)
}

/// The number of a register.
pub fn register_of(name: &str) -> Option<usize>
    ensures { IfSome result (λ register. register < 32) }
{
    let register = name.parse::<usize>().ok()?;
    (register < 32).then_some(register)
}

// The memory: the pages, with the words.
fn memory_of(alloc: Global, value: &Value) -> Result<Pages, CaseFault> {
    let numbers = pages_of(alloc, value)?;
    if !are_page_numbers(&numbers) || numbers.len() > 4096 {
        return Err(CaseFault::Form);
    }
    let mut pages = Pages::map(alloc, &numbers)?;
    if let Some(words) = value.get("words").and_then(Value::as_object) {
        for (at, word) in words {
            let at = hexadecimal(at.as_str()).ok_or(CaseFault::Form)?;
            if !pages.store32(at, hexadecimal_of(word)?) {
                return Err(CaseFault::Form);
            }
        }
    }
    Ok(pages)
}

fn pages_of(alloc: Global, value: &Value) -> Result<Vec<u32>, CaseFault> {
    let mut numbers = Vec::new(alloc);
    if let Some(items) = value.get("pages").and_then(Value::as_array) {
        for item in items {
            if numbers.push(word_of_number(item)?).is_err() {
                return Err(CaseFault::Memory);
            }
        }
    }
    Ok(numbers)
}

// Whether these are numbers of pages, in ascending order.
fn are_page_numbers(numbers: &[u32]) -> bool
    ensures ascending { IsTrue result → IsStrictlyIncreasing numbers.now }
    ensures below { IsTrue result → All (λ number. number < 2 ^ 20) numbers.now }
{
    is_ascending(numbers) && numbers.iter().all(|number| *number < 1 << 20)
}

fn is_ascending(numbers: &[u32]) -> bool
    ensures { IsTrue result → IsStrictlyIncreasing numbers.now }
{
    for i in 1..numbers.len() {
        if numbers[i - 1] >= numbers[i] {
            return false;
        }
    }
    true
}

// The recorded input; none if it is missing.
fn journal_of(alloc: Global, value: &Value) -> Result<Journal, CaseFault> {
    let Some(member) = value.get("journal") else {
        return Ok(Journal::none(alloc));
    };
    let digits = member.as_str().ok_or(CaseFault::Form)?;
    let Ok(bytes) = hex::decode(alloc, digits.as_bytes()) else {
        return Err(CaseFault::Form);
    };
    read_journal(alloc, bytes).map_err(|_| CaseFault::Form)
}
