// The options of a command line.
ghost use Rattle.std.specs.Prelude.{◌≤◌, ◌<◌, ◌^◌, ℕ, IfSome, IfNone};
ghost use Rattle.std.specs.Option.{option_map};
ghost use Rattle.reversal_gdb.specs.OptionValues.{Gives, IsNumberOf};

use clap::ArgMatches;

// How many pages the stack has, at most and if no option says so.
const MOST_STACK_PAGES: u32 = 1024;

const STACK_PAGES: u32 = 16;

// How many instructions a run may have.
const MOST_STEPS: u32 = u32::MAX - 1;

// How many states may be kept.
const FEWEST_MARKS: u32 = 2;

const MOST_MARKS: u32 = 65_536;

const MARKS: u32 = 256;

/// What the options say.
#[derive(Clone, Copy)]
pub struct Options {
    /// Whether the program is raw words.
    pub raw: bool,
    /// How many pages the stack has.
    pub stack: u32,
    /// How many instructions the run has at most.
    pub most: u32,
    /// How many states of the run may be kept.
    pub marks: u32,
    ghost some: { 1 ≤ stack },
    ghost few: { stack ≤ 1024 },
}

impl Options {
    ghost use Rattle.std.specs.Prelude.{◌≡◌, IfSome, IfNone};
    ghost use Rattle.clap.specs.Words.{found_of, rows_of};
    ghost use Rattle.reversal_gdb.specs.CommandLine.{AreOptions};

    /// The options among the arguments, if their numbers are within their bounds.
    pub fn among(matches: &ArgMatches<'_>) -> Option<Options>
        ensures some { IfSome result (AreOptions (rows_of (found_of matches.now))) }
        ensures none { IfNone result ((o : _) → AreOptions (rows_of (found_of matches.now)) o → ⊥) }
    {
        let stack = number_in(matches.get_str("stack"), STACK_PAGES, 1, MOST_STACK_PAGES)?;
        let most = number_in(matches.get_str("most"), MOST_STEPS, 1, MOST_STEPS)?;
        let marks = number_in(matches.get_str("marks"), MARKS, FEWEST_MARKS, MOST_MARKS)?;
        Some(Options {
            raw: matches.get_flag("raw"),
            stack,
            most,
            marks,
        })
    }
}

// The number between two bounds that a text is, or the default without a text.
fn number_in(text: Option<&str>, default: u32, least: u32, greatest: u32) -> Option<u32>
    ensures some { IfSome result (IsNumberOf (option_map (λ t. t.now) text.entry) default least greatest) }
    ensures none { IfNone result ((n : ℕ) → IsNumberOf (option_map (λ t. t.now) text.entry) default least greatest n → ⊥) }
{
    let number = number_of(text, default)?;
    if least <= number && number <= greatest {
        Some(number)
    } else {
        None
    }
}

// The number of 32 bits that a text is, or the default without a text.
fn number_of(text: Option<&str>, default: u32) -> Option<u32>
    ensures some { IfSome result (Gives default (option_map (λ t. t.now) text.entry)) }
    ensures none { IfNone result ((n : ℕ) → n < 2 ^ 32 → Gives default (option_map (λ t. t.now) text.entry) n → ⊥) }
{
    match text {
        Some(digits) => digits.parse::<u32>().ok(),
        None => Some(default),
    }
}
