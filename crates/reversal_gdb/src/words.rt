// What the words of a command line ask for.
ghost use Rattle.std.specs.Prelude.{◌≡◌, map, string_bytes, IfOk, IfSome, IfNone};
ghost use Rattle.clap.specs.Words.{FailsBy, fault_of, found_of, matches_of, rows_of};
ghost use Rattle.reversal_gdb.specs.CommandLine.{AskFor, Names, command};

use crate::options::Options;
use clap::error::ErrorKind;
use clap::{Arg, ArgAction, ArgMatches, Command, Error};
use std::alloc::{AllocError, Global};

/// What a command line asks for.
#[derive(Clone, Copy)]
pub enum Asked<'a> {
    /// The usage.
    Help,
    /// A session over a run.
    Session(Run<'a>),
    /// The words are none of these.
    Nothing,
}

/// The run of a session: the options, and the names of its files.
#[derive(Clone, Copy)]
pub struct Run<'a> {
    pub options: Options,
    pub program: &'a str,
    pub journal: Option<&'a str>,
}

/// What the words ask for, of which the first is the program's own name.
pub fn read_words<'a>(alloc: Global, words: &'a [String]) -> Result<Asked<'a>, AllocError>
    ensures { IfOk result (AskFor (map string_bytes words.entry.now)) }
{
    match matches_of(alloc, words) {
        Ok(matches) => match run_of(&matches) {
            Some(run) => Ok(Asked::Session(run)),
            None => Ok(Asked::Nothing),
        },
        Err(error) => match error.kind() {
            ErrorKind::DisplayHelp => Ok(Asked::Help),
            ErrorKind::OutOfMemory => Err(AllocError),
            _ => Ok(Asked::Nothing),
        },
    }
}

// The arguments of the command line.
fn matches_of<'a>(alloc: Global, words: &'a [String]) -> Result<ArgMatches<'a>, Error>
    ensures found { IfOk result (λ m. rows_of (found_of m) ≡ matches_of command (map string_bytes words.entry.now)) }
    ensures fails { FailsBy (fault_of command (map string_bytes words.entry.now)) result }
{
    let raw = Arg::new(alloc, "raw")
        .long("raw")
        .action(ArgAction::SetTrue);
    let command = Command::new(alloc, "reversal_gdb")
        .arg(raw)?
        .arg(Arg::new(alloc, "stack").long("stack"))?
        .arg(Arg::new(alloc, "most").long("most"))?
        .arg(Arg::new(alloc, "marks").long("marks"))?
        .arg(Arg::new(alloc, "program").required(true))?
        .arg(Arg::new(alloc, "journal"))?;
    command.try_get_matches_from(words)
}

// The run that the arguments name.
fn run_of<'a>(matches: &ArgMatches<'a>) -> Option<Run<'a>>
    ensures some { IfSome result (Names (rows_of (found_of matches.now))) }
    ensures none { IfNone result ((run : _) → Names (rows_of (found_of matches.now)) run → ⊥) }
{
    Some(Run {
        options: Options::among(matches)?,
        program: matches.get_str("program")?,
        journal: matches.get_str("journal").filter(|name| *name != "-"),
    })
}
