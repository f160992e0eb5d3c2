// Where the images of the levels are kept.
ghost use Rattle.std.specs.Prelude.{◌≡◌, ◌≤◌, ◌<◌, length, map};
ghost use Rattle.std.specs.Option.{option_copied};
ghost use Rattle.endings.specs.declared.outcome.Outcome.{Outcome};
ghost use Rattle.requests.specs.Request.{Request as ARequest, words_of};
ghost use Rattle.requests.specs.Bounds.{RefusesWords, Asks};
ghost use Rattle.requests.specs.ChoiceParser.{options_at};
ghost use Rattle.requests.specs.Places.{levels, place_from, places_of, all_in_memory, folder_said, folder_at};

use crate::options::next_option;
use crate::request::read_request;
use crate::words::Words;

/// Where the images of a level are kept.
#[derive(Clone, Copy, Debug, PartialEq, Eq)]
pub enum KeepAt {
    Memory,
    /// In files of a folder. Its name is the end of this word, counted from 1, from this byte on, counted from 0.
    Folder { word: u32, start: u32 },
}

impl KeepAt {
    /// The name of the folder, from the words of this place.
    pub fn folder(self, words: &Words) -> Option<&[u8]>
        ensures { option_copied result ≡ folder_at (words_of words.now) self }
    {
        match self {
            KeepAt::Memory => None,
            KeepAt::Folder { word, start } => {
                let option = words.list.get((word as usize).saturating_sub(1))?;
                Some(&option[option.len().min(start as usize)..])
            }
        }
    }
}

/// Where the words ask to keep the images of levels 0 to 3. Refused words ask for nothing, and all images are kept in
/// memory. It takes no memory.
pub fn keeper_places(words: &Words) -> [KeepAt; 4]
    ensures asked { (r : ARequest) → Asks (words_of words.now) r → result ≡ places_of r.options }
    ensures refused { (e : Outcome) → RefusesWords (words_of words.now) e → result ≡ all_in_memory }

    // The places have the folders that the options name.
    ensures folders { (r : ARequest) → Asks (words_of words.now) r →
        map (folder_at (words_of words.now)) result ≡ map (λ level. folder_said level r.options) levels }
{
    let Some(request) = read_request(&words.list) else {
        return [KeepAt::Memory; 4];
    };
    match request.refusal() {
        Some(_) => [KeepAt::Memory; 4],
        None => places(request.options.words()),
    }
}

// The places of all levels, by the options at the front of the words.
fn places(words: &[Vec<u8>]) -> [KeepAt; 4]
    requires { length (options_at (map (λ w. w.items) words.now)) ≤ 8 }
    ensures { result ≡ places_of (options_at (map (λ w. w.items) words.now)) }
{
    [
        place(0, words),
        place(1, words),
        place(2, words),
        place(3, words),
    ]
}

// Where a folder's name begins in its word: after `--files=K:`, where K is a digit.
const FOLDER_START: u32 = 10;

// Where the images of this level are kept, by the options at the front of the words.
fn place(level: u64, words: &[Vec<u8>]) -> KeepAt
    requires level { level < 4 }
    requires few { length (options_at (map (λ w. w.items) words.now)) ≤ 8 }
    ensures { result ≡ place_from level 1 (options_at (map (λ w. w.items) words.now)) }
{
    let mut word = 1;
    let mut rest = words;
    while let Some((choice, behind)) = next_option(rest) {
        if choice.is_files(level) {
            return KeepAt::Folder {
                word,
                start: FOLDER_START,
            };
        }
        word += 1;
        rest = behind;
    }
    KeepAt::Memory
}
