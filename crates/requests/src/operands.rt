// The words of a command, read one after the other.
ghost use Rattle.std.specs.Prelude.{◌≡◌, ◌⊎◌, ℕ, List, ◌∷◌, [], map, None, Some, MatchOption, option_map, Option};
ghost use Rattle.line_texts.specs.Prelude.{GivesSome};
ghost use Rattle.requests.specs.RequestModel.{as_schedule};
ghost use Rattle.requests.specs.Forms.{fixed, named, named_or_none, schedule_named, scheduled, numbered, addressed, digested, address_of, digest_of, finished, Takes};

use crate::options::number_in;
use crate::request::Command;
use crate::schedule::Schedule;
use std::marker::Model;

/// The words of a command still to be read, up to the first that doesn't fit. After that nothing is read.
#[derive(Drop)]
pub struct Operands<'a> {
    rest: Option<&'a [Vec<u8>]>,
}

impl<'a> Operands<'a> {
    /// All of these words.
    pub fn of(words: &'a [Vec<u8>]) -> Operands<'a>
        ensures { result ≡ Some (map (λ w. w.items) words.now) }
    {
        Operands { rest: Some(words) }
    }

    // The next word. If there is none, nothing more is read.
    fn next(&mut self) -> Option<&'a [u8]>
        ensures { MatchOption result ((self.new ≡ None) × ((self.old ≡ None) ⊎ (self.old ≡ Some []))) (λ word. (words : List (List ℕ))
            × ((self.old ≡ Some (word.now ∷ words)) × (self.new ≡ Some words))) }
    {
        match self.rest {
            Some([word, behind @ ..]) => {
                self.rest = Some(behind);
                Some(word.as_slice())
            }
            _ => {
                self.rest = None;
                None
            }
        }
    }

    // The value of the word that was read. If it has none, nothing more is read.
    fn taken<T: Copy>(&mut self, value: Option<T>, nothing: T) -> T
        ensures { MatchOption value ((result ≡ nothing) × (self.new ≡ None)) (λ x. (result ≡ x) × (self.new ≡ self.old)) }
    {
        if value.is_none() {
            self.rest = None;
        }
        value.unwrap_or(nothing)
    }

    /// Reads exactly this word.
    #[tactic(auto, unfolding(crate::specs::Forms::front_taken))]
    pub fn word(&mut self, text: &[u8])
        ensures { Takes (fixed text.now) self.old tt self.new }
    {
        if self.next() != Some(text) {
            self.rest = None;
        }
    }

    /// Reads the name of an input.
    #[tactic(auto, unfolding(crate::specs::Forms::front_taken))]
    pub fn name(&mut self) -> &'a [u8]
        ensures { Takes named self.old result.now self.new }
    {
        match self.next() {
            Some(word) if !word.is_empty() => word,
            _ => {
                self.rest = None;
                b""
            }
        }
    }

    /// Reads the name of an input, or the word for none.
    #[tactic(auto, unfolding(crate::specs::Forms::front_taken))]
    pub fn name_or_dash(&mut self) -> Option<&'a [u8]>
        ensures { Takes named_or_none self.old (option_map (λ name. name.now) result) self.new }
    {
        match self.next() {
            Some(word) if word == b"-".as_slice() => None,
            Some(word) if !word.is_empty() => Some(word),
            _ => {
                self.rest = None;
                None
            }
        }
    }

    /// Reads the name of a schedule.
    #[tactic(auto, unfolding(crate::specs::Forms::front_taken))]
    pub fn schedule_name(&mut self) -> &'a [u8]
        ensures { Takes schedule_named self.old result.now self.new }
    {
        match self.next() {
            Some(word) if !word.is_empty() && word != b"@revolve".as_slice() => word,
            _ => {
                self.rest = None;
                b""
            }
        }
    }

    /// Reads the schedule of a run: its name, or the word for Revolve's list.
    #[tactic(auto, unfolding(crate::specs::Forms::front_taken))]
    pub fn schedule(&mut self) -> Schedule<'a>
        ensures { Takes scheduled self.old (as_schedule result) self.new }
    {
        match self.next() {
            Some(word) if word == b"@revolve".as_slice() => Schedule::Made,
            Some(word) if !word.is_empty() => Schedule::Named(word),
            _ => {
                self.rest = None;
                Schedule::Made
            }
        }
    }

    /// Reads a number.
    #[tactic(auto, unfolding(crate::specs::Forms::front_taken))]
    pub fn number(&mut self) -> u64
        ensures { Takes numbered self.old result self.new }
    {
        let number = self.next().and_then(number_in);
        self.taken(number, 0)
    }

    /// Reads an address.
    #[tactic(auto, unfolding(crate::specs::Forms::front_taken))]
    pub fn address(&mut self) -> u32
        ensures { Takes addressed self.old result self.new }
    {
        let address = self.next().and_then(read_address);
        self.taken(address, 0)
    }

    /// Reads a digest.
    #[tactic(auto, unfolding(crate::specs::Forms::front_taken))]
    pub fn digest(&mut self) -> [u8; 32]
        ensures { Takes digested self.old result self.new }
    {
        let digest = self.next().and_then(read_digest);
        self.taken(digest, [0; 32])
    }

    /// The command, if each word was read.
    pub fn finish(self, command: Command<'a>) -> Option<Command<'a>>
        ensures { result ≡ finished self.entry command.entry }
    {
        match self.rest {
            Some([]) => Some(command),
            _ => None,
        }
    }
}

impl<'a> Model for Operands<'a> {
    ghost Value = { Option (List (List ℕ)) };

    ghost view = { λ o. option_map (λ rest. map (λ w. w.items) rest.now) o.rest };
}

// The digest of a word of 64 digits.
#[tactic(auto, unfolding(crate::specs::Forms::digest_of))]
fn read_digest(word: &[u8]) -> Option<[u8; 32]>
    ensures { GivesSome (λ d. d) result (digest_of word.now) }
{
    let mut digest = [0; 32];
    hex::decode_to_slice(word, &mut digest).ok()?;
    let mut canonical = [0; 64];
    hex::encode_to_slice(&digest, &mut canonical).unwrap();
    if canonical.as_slice() == word {
        Some(digest)
    } else {
        None
    }
}

// The address that a word is.
fn read_address(word: &[u8]) -> Option<u32>
    ensures { GivesSome (λ a. a) result (address_of word.now) }
{
    match line_texts::address_of(word) {
        Some(address) => Some(address),
        None => None,
    }
}
