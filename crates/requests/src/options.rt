// The options of a command line.
ghost use Rattle.std.specs.Prelude.{◌≡◌, map, find, List};
ghost use Rattle.std.specs.List.{list_any};
ghost use Rattle.line_texts.specs.Prelude.{GivesSome};
ghost use Rattle.requests.specs.Request.{is_files, says_raw, stack_pages, worker_count, unit_count, Choice};
ghost use Rattle.requests.specs.ChoiceParser.{number_of, files_of, choice_of, first_choice, options_at, behind_options, is_like, are_single, choice_number, number_like, as_choice};

use crate::text::after;
use line_texts::number_at;
use std::marker::Model;

/// An option.
#[derive(Clone, Copy)]
pub enum Choice<'a> {
    /// The program is raw words.
    Raw,
    /// The stack has so many pages.
    Stack(u64),
    /// So many workers share the work.
    Workers(u64),
    /// A step of a schedule is so many instructions.
    Unit(u64),
    /// The images of this level are kept in files of the folder with this name.
    Files(u64, &'a [u8]),
}

impl Choice<'_> {
    // Whether the other is of the same kind, which may occur once.
    fn is_like(&self, other: &Choice<'_>) -> bool
        ensures { result ≡ is_like (as_choice self.now) (as_choice other.now) }
    {
        match self {
            Choice::Raw => matches!(other, Choice::Raw),
            Choice::Stack(_) => matches!(other, Choice::Stack(_)),
            Choice::Workers(_) => matches!(other, Choice::Workers(_)),
            Choice::Unit(_) => matches!(other, Choice::Unit(_)),
            Choice::Files(level, _) => other.is_files(*level),
        }
    }

    // Its number: for files, that of the level.
    fn number(&self) -> u64
        ensures { result ≡ choice_number (as_choice self.now) }
    {
        match self {
            Choice::Raw => 0,
            Choice::Stack(n) | Choice::Workers(n) | Choice::Unit(n) | Choice::Files(n, _) => *n,
        }
    }

    /// Whether it is the option of this level's files.
    pub fn is_files(&self, level: u64) -> bool
        ensures { result ≡ is_files level (as_choice self.now) }
    {
        match self {
            Choice::Files(k, _) => level == *k,
            _ => false,
        }
    }
}

/// Options in the order of the words. They take no memory: they are the words, and are read again for each question.
#[derive(Drop)]
pub struct Options<'a> {
    words: &'a [Vec<u8>],
}

impl<'a> Options<'a> {
    /// The words that begin with these options.
    pub fn words(&self) -> &'a [Vec<u8>]
        ensures { options_at (map (λ w. w.items) result.now) ≡ self.now }
    {
        self.words
    }

    /// Whether no two options are of one kind.
    pub fn are_single(&self) -> bool
        ensures { result ≡ are_single self.now }
    {
        let mut rest = self.words();
        while let Some((choice, behind)) = next_option(rest) {
            if has_like(behind, &choice) {
                return false;
            }
            rest = behind;
        }
        true
    }

    /// Whether the program is raw words.
    pub fn says_raw(&self) -> bool
        ensures { result ≡ says_raw self.now }
    {
        has_like(self.words(), &Choice::Raw)
    }

    /// The number of the stack's pages, 16 by default.
    pub fn stack_pages(&self) -> u64
        ensures { result ≡ stack_pages self.now }
    {
        self.number_like(&Choice::Stack(16))
    }

    /// How many workers share the work: tables of costs, the search for a digest, or the digests of lines.
    pub fn worker_count(&self) -> u64
        ensures { result ≡ worker_count self.now }
    {
        self.number_like(&Choice::Workers(1))
    }

    /// How many instructions a step of a schedule is.
    pub fn unit_count(&self) -> u64
        ensures { result ≡ unit_count self.now }
    {
        self.number_like(&Choice::Unit(1))
    }

    // The number of the option of the same kind, or of this one by default.
    fn number_like(&self, default: &Choice<'_>) -> u64
        ensures { result ≡ number_like (as_choice default.now) self.now }
    {
        match first_like(self.words(), default) {
            Some(choice) => choice.number(),
            None => default.number(),
        }
    }
}

impl<'a> Model for Options<'a> {
    ghost Value = { List Choice };

    ghost view = { λ o. options_at (map (λ w. w.items) o.words.now) };
}

// Whether an option of the same kind is among those at the front of the words.
fn has_like(words: &[Vec<u8>], choice: &Choice<'_>) -> bool
    ensures { result ≡ list_any (is_like (as_choice choice.now)) (options_at (map (λ w. w.items) words.now)) }
{
    first_like(words, choice).is_some()
}

// The first option of the same kind among those at the front of the words.
fn first_like<'a>(words: &'a [Vec<u8>], choice: &Choice<'_>) -> Option<Choice<'a>>
    ensures { GivesSome as_choice result (find (is_like (as_choice choice.now)) (options_at (map (λ w. w.items) words.now))) }
{
    let mut rest = words;
    while let Some((other, behind)) = next_option(rest) {
        if choice.is_like(&other) {
            return Some(other);
        }
        rest = behind;
    }
    None
}

/// The number that a whole word spells.
pub fn number_in(word: &[u8]) -> Option<u64>
    ensures { GivesSome (λ n. n) result (number_of word.now) }
{
    match line_texts::number_of(word, u64::MAX) {
        Some(n) => Some(n),
        None => None,
    }
}

// The option of a level's files, after its prefix.
fn files_in(text: &[u8]) -> Option<Choice<'_>>
    ensures { GivesSome as_choice result (files_of text.now) }
{
    let (level, rest) = number_at(text, u64::MAX)?;
    let folder = after(rest, b":")?;
    if folder.is_empty() {
        None
    } else {
        Some(Choice::Files(level, folder))
    }
}

// The option that a word is.
#[tactic(auto, unfolding(crate::specs::ChoiceParser::choice_of))]
fn choice_in(word: &[u8]) -> Option<Choice<'_>>
    ensures { GivesSome as_choice result (choice_of word.now) }
{
    if word == b"--raw".as_slice() {
        return Some(Choice::Raw);
    }
    if let Some(text) = after(word, b"--stack=") {
        let pages = number_in(text)?;
        return Some(Choice::Stack(pages));
    }
    if let Some(text) = after(word, b"--workers=") {
        let count = number_in(text)?;
        return Some(Choice::Workers(count));
    }
    if let Some(text) = after(word, b"--unit=") {
        let count = number_in(text)?;
        return Some(Choice::Unit(count));
    }
    let text = after(word, b"--files=")?;
    files_in(text)
}

/// The option that the first word is, and the words after it.
pub fn next_option(words: &[Vec<u8>]) -> Option<(Choice<'_>, &[Vec<u8>])>
    ensures { GivesSome (λ x. (as_choice x.0, map (λ w. w.items) x.1.now)) result (first_choice (map (λ w. w.items) words.now)) }
{
    let [word, behind @ ..] = words else {
        return None;
    };
    let choice = choice_in(word)?;
    Some((choice, behind))
}

/// The options at the front of the words, and the words after them.
pub fn read_options(words: &[Vec<u8>]) -> (Options<'_>, &[Vec<u8>])
    ensures options { result.0 ≡ options_at (map (λ w. w.items) words.now) }
    ensures behind { map (λ w. w.items) result.1.now ≡ behind_options (map (λ w. w.items) words.now) }
{
    let mut rest = words;
    while let Some((_, behind)) = next_option(rest) {
        rest = behind;
    }
    (Options { words }, rest)
}
