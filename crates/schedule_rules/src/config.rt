// A configuration, which action may be done at it, and what the action does to it.
ghost use Rattle.std.specs.Prelude.{◌≡◌, ◌<◌, ◌≤◌, ℕ, ◌+◌, ◌==◌, ◌||◌, not, true, false, is_some, length, map, slice_index_or, slice_set, nat_lt, vec_len, MatchResult, IfOk, cond, Option};
ghost use Rattle.std.specs.FinSet as set;
ghost use Rattle.std.specs.List.{AllByRecursion};
ghost use Rattle.plan_types.specs.declared.limits.TheConstants.{MOST_STEPS};
ghost use Rattle.level_book.specs.Prelude.{slots_of, start, held_on, Goes, rule, is_full, target};
ghost use Rattle.schedule_rules.specs.Levels.{slots_kept, images_kept, HasBit};
ghost use Rattle.schedule_rules.specs.Reachability.{IsReached, IsSound};
ghost use Rattle.schedule_rules.specs.Verdicts.{refusal};
ghost use Rattle.schedule_rules.specs.BitRoom.{HasBits};
ghost use Rattle.schedule_rules.specs.Situation.{Situation, situation_code};
ghost use Rattle.schedule_rules.specs.ConfigModel.{situation_of, IsKept};

use crate::positions::Positions;
use level_book::{Book, Slots};
use plan_types::{Action, Dest, Keep};
use std::alloc::{AllocError, Global};
use std::marker::Model;

/// Why an action isn't allowed.
#[derive(Clone, Copy, PartialEq, Eq)]
pub enum Broken {
    /// It breaks the rule with this number, and no lower one. The level is set for rule 4, and 0 otherwise.
    Rule { rule: u8, level: u8 },
}

// One level of the book: its slots, and the images that it holds.
#[derive(Drop)]
pub(crate) struct LevelHeld {
    pub slots: Slots,
    pub images: Positions,
}

/// What a list of actions has done so far, for a number of steps and a book. All memory is reserved at the start.
#[derive(Drop)]
pub struct Config {
    steps: u32,
    levels: Vec<LevelHeld>,
    work: u32,
    tape: Option<u32>,
    reverse: u32,
    forward_ended: bool,
    ended: bool,
}

impl Config {
    /// The start, for a number of steps and a book.
    pub fn new(alloc: Global, steps: u32, book: &Book) -> Result<Config, AllocError>
        requires { steps ≤ MOST_STEPS }
        ensures { IfOk result (λ config. config ≡ record { steps = steps; slots = slots_of book.now; at = start steps (slots_of book.now) }) }
    {
        Ok(Config {
            steps,
            levels: empty_levels(alloc, steps, book)?,
            work: 0,
            tape: None,
            reverse: steps,
            forward_ended: false,
            ended: false,
        })
    }

    /// Does an action that `judge` allows. It takes no memory.
    #[inline(always)]
    pub fn take(&mut self, action: &Action)
        requires { rule self.old.steps self.old.slots self.old.at action.now ≡ 0 }
        ensures goes { Goes self.old.steps self.old.slots self.old.at action.now self.new.at }
        ensures steps { self.new.steps ≡ self.old.steps }
        ensures slots { self.new.slots ≡ self.old.slots }
    {
        let _levels = &self.levels;
        match *action {
            Action::Forward { from, to, keep } => {
                self.work = to;
                match keep {
                    Keep::Nothing => {}
                    Keep::Store(level) => hold(&mut self.levels, from, level),
                    Keep::Tape => self.tape = Some(from),
                }
            }
            Action::Reverse { to, .. } => {
                self.reverse = to;
                self.tape = None;
            }
            Action::Copy { n, dest, .. } => match dest {
                Dest::Work => self.work = n,
                Dest::Level(level) => hold(&mut self.levels, n, level),
            },
            Action::Move { n, from, dest } => {
                release(&mut self.levels, n, from);
                match dest {
                    Dest::Work => self.work = n,
                    Dest::Level(level) => hold(&mut self.levels, n, level),
                }
            }
            Action::EndForward => self.forward_ended = true,
            Action::EndReverse => self.ended = true,
        }
    }

    /// Does nothing. Its contract is a law: some list leads to the current configuration, which is sound.
    pub fn is_sound(&self)
        ensures reached { ∥ IsReached self.now.steps self.now.slots self.now.at ∥₁ }
        ensures sound { IsSound self.now.steps self.now.slots self.now.at }
    {
        let _levels = &self.levels;
    }

    /// The number of the state in work.
    pub fn work(&self) -> u32
        ensures { result ≡ self.now.at.work }
    {
        self.work
    }

    /// How many steps are still to be reversed.
    pub fn reverse(&self) -> u32
        ensures { result ≡ self.now.at.reverse }
    {
        self.reverse
    }

    /// The number of the state on the tape, if there is one.
    pub fn taped(&self) -> Option<u32>
        ensures { result ≡ self.now.at.tape }
    {
        self.tape
    }

    /// Whether EndForward was done.
    pub fn forward_ended(&self) -> bool
        ensures { result ≡ self.now.at.forward_ended }
    {
        self.forward_ended
    }

    /// Whether EndReverse was done.
    pub fn ended(&self) -> bool
        ensures { result ≡ self.now.at.ended }
    {
        self.ended
    }

    /// Whether a level holds the image of state `n`. A level that the book doesn't have holds nothing.
    pub fn held(&self, n: u32, level: u8) -> bool
        ensures { result ≡ set.contains (held_on self.now.at level) n }
    {
        match self.levels.get(level as usize) {
            Some(held) => held.images.contains(n),
            None => false,
        }
    }

    /// How many images are held on a level.
    pub fn held_count(&self, level: u8) -> u32
        ensures { result ≡ set.len (held_on self.now.at level) }
    {
        match self.levels.get(level as usize) {
            Some(held) => held.images.count,
            None => 0,
        }
    }

    // Whether the book has a level.
    fn has_level(&self, k: u8) -> bool
        ensures { result ≡ nat_lt k (length self.now.slots) }
    {
        (k as usize) < self.levels.len()
    }

    // Whether a level of the book holds as many images as its slots.
    fn is_full(&self, k: u8) -> bool
        requires { k < length self.now.slots }
        ensures { result ≡ is_full (slice_index_or self.now.slots k (Slots.Count 0)) (held_on self.now.at k) }
    {
        let level = &self.levels[k as usize];
        match level.slots {
            Slots::Count(slots) => slots <= level.images.count,
            Slots::Unlimited => false,
        }
    }

    /// Whether an action is allowed, and if not, the lowest rule that it breaks. It changes nothing and takes no
    /// memory.
    #[inline(always)]
    pub fn judge(&self, action: &Action) -> Result<(), Broken>
        ensures { MatchResult result
            (λ _. rule self.now.steps self.now.slots self.now.at action.now ≡ 0)
            (λ broken. (0 < rule self.now.steps self.now.slots self.now.at action.now)
            × (broken ≡ refusal self.now.steps self.now.slots self.now.at action.now)) }
    {
        let number = if self.ended {
            15
        } else {
            match *action {
                Action::Forward { from, to, keep } => self.judge_forward(from, to, keep),
                Action::Reverse { from, to } => self.judge_reverse(from, to),
                Action::Copy { n, from, dest } => self.judge_transfer(n, from, dest),
                Action::Move { n, from, dest } => self.judge_transfer(n, from, dest),
                Action::EndForward => self.judge_end_forward(),
                Action::EndReverse => self.judge_end_reverse(),
            }
        };
        match number {
            0 => Ok(()),
            4 => Err(Broken::Rule {
                rule: 4,
                level: target(action),
            }),
            rule => Err(Broken::Rule { rule, level: 0 }),
        }
    }

    // The lowest rule that a Forward breaks, 0 where it breaks none.
    fn judge_forward(&self, from: u32, to: u32, keep: Keep) -> u8
        requires { self.now.at.ended ≡ false }
        ensures { result ≡ rule self.now.steps self.now.slots self.now.at (Action.Forward from to keep) }
    {
        // One test for three rules: nearly every action passes it, and separate branches take longer.
        if (from == self.work) & (from < to) & (to <= self.reverse) {
            match keep {
                Keep::Nothing => 0,
                Keep::Store(level) => self.judge_store(from, level),
                Keep::Tape => self.judge_tape(from, to),
            }
        } else if from != self.work {
            1
        } else if to <= from || self.steps < to {
            2
        } else {
            3
        }
    }

    // The rule that a Tape breaks, beyond those of its Forward; 0 for none.
    fn judge_tape(&self, from: u32, to: u32) -> u8
        requires { from < to }
        ensures { result ≡ cond (not (to == from + 1) || not (to == self.now.at.reverse)) 8 (cond (is_some self.now.at.tape) 9 0) }
    {
        if (to - from != 1) | (to != self.reverse) {
            8
        } else if self.tape.is_some() {
            9
        } else {
            0
        }
    }

    // The rule that a Store breaks, beyond those of its Forward; 0 for none.
    fn judge_store(&self, n: u32, level: u8) -> u8
        ensures { result ≡ cond (nat_lt level (length self.now.slots))
            (cond (is_full (slice_index_or self.now.slots level (Slots.Count 0)) (held_on self.now.at level)) 4
            (cond (set.contains (held_on self.now.at level) n) 5 0))
            17 }
    {
        if !self.has_level(level) {
            17
        } else if self.is_full(level) {
            4
        } else if self.held(n, level) {
            5
        } else {
            0
        }
    }

    // The lowest rule that a Copy or a Move breaks.
    #[inline(always)]
    fn judge_transfer(&self, n: u32, from: u8, dest: Dest) -> u8
        requires { self.now.at.ended ≡ false }
        ensures copy { result ≡ rule self.now.steps self.now.slots self.now.at (Action.Copy n from dest) }
        ensures move_ { result ≡ rule self.now.steps self.now.slots self.now.at (Action.Move n from dest) }
    {
        match dest {
            Dest::Work => {
                if !self.has_level(from) {
                    17
                } else if !self.held(n, from) {
                    6
                } else {
                    0
                }
            }
            Dest::Level(to) => self.judge_to_level(n, from, to),
        }
    }

    // The rule that a Copy or a Move to a level breaks; 0 for none.
    #[inline(always)]
    fn judge_to_level(&self, n: u32, from: u8, to: u8) -> u8
        requires { self.now.at.ended ≡ false }
        ensures copy { result ≡ rule self.now.steps self.now.slots self.now.at (Action.Copy n from (Dest.Level to)) }
        ensures move_ { result ≡ rule self.now.steps self.now.slots self.now.at (Action.Move n from (Dest.Level to)) }
    {
        if !self.has_level(from) || !self.has_level(to) {
            17
        } else if to == from {
            if self.held(n, from) { 7 } else { 6 }
        } else if self.is_full(to) {
            4
        } else if self.held(n, to) {
            5
        } else if !self.held(n, from) {
            6
        } else {
            0
        }
    }

    // The lowest rule that a Reverse breaks.
    fn judge_reverse(&self, from: u32, to: u32) -> u8
        requires { self.now.at.ended ≡ false }
        ensures { result ≡ rule self.now.steps self.now.slots self.now.at (Action.Reverse from to) }
    {
        let is_next = (from == self.reverse) & (to < from) & (from.wrapping_sub(to) == 1);
        if self.tape.is_some() & is_next & self.forward_ended {
            0
        } else if self.tape.is_none() {
            10
        } else if !is_next {
            11
        } else {
            12
        }
    }

    // The lowest rule that EndForward breaks.
    fn judge_end_forward(&self) -> u8
        requires { self.now.at.ended ≡ false }
        ensures { result ≡ rule self.now.steps self.now.slots self.now.at Action.EndForward }
    {
        if self.forward_ended {
            13
        } else if self.work != self.steps {
            14
        } else {
            0
        }
    }

    // The lowest rule that EndReverse breaks.
    fn judge_end_reverse(&self) -> u8
        requires { self.now.at.ended ≡ false }
        ensures { result ≡ rule self.now.steps self.now.slots self.now.at Action.EndReverse }
    {
        if !self.forward_ended {
            12
        } else if self.reverse != 0 {
            16
        } else {
            0
        }
    }
}

impl Model for Config {
    ghost Value = { Situation };

    ghost coded = { situation_code };

    ghost view = { situation_of };

    ghost invariant = { IsKept };
}

// Adds the image of state `n` to a level that doesn't hold it.
#[inline(always)]
fn hold(levels: &mut Vec<LevelHeld>, n: u32, level: u8)
    requires level { level < vec_len levels.old }
    requires room { AllByRecursion (HasBit n) levels.old.items }
    requires new { set.contains (slice_index_or (images_kept levels.old.items) level set.empty) n ≡ false }
    ensures slots { slots_kept levels.new.items ≡ slots_kept levels.old.items }
    ensures held { images_kept levels.new.items ≡ slice_set (images_kept levels.old.items) level
        (set.insert (slice_index_or (images_kept levels.old.items) level set.empty) n) }
    ensures bits { (steps : ℕ) → AllByRecursion (HasBits steps) levels.old.items → AllByRecursion (HasBits steps) levels.new.items }
{
    levels[level as usize].images.insert(n);
}

// Drops the image of state `n` from a level.
#[inline(always)]
fn release(levels: &mut Vec<LevelHeld>, n: u32, level: u8)
    requires level { level < vec_len levels.old }
    requires there { set.contains (slice_index_or (images_kept levels.old.items) level set.empty) n ≡ true }
    ensures slots { slots_kept levels.new.items ≡ slots_kept levels.old.items }
    ensures held { images_kept levels.new.items ≡ slice_set (images_kept levels.old.items) level
        (set.remove (slice_index_or (images_kept levels.old.items) level set.empty) n) }
    ensures bits { (steps : ℕ) → AllByRecursion (HasBits steps) levels.old.items → AllByRecursion (HasBits steps) levels.new.items }
{
    levels[level as usize].images.remove(n);
}

// The levels of a book, each with room for the positions up to `steps`, and without images.
fn empty_levels(alloc: Global, steps: u32, book: &Book) -> Result<Vec<LevelHeld>, AllocError>
    requires { steps ≤ MOST_STEPS }
    ensures slots { IfOk result (λ levels. slots_kept levels.items ≡ slots_of book.now) }
    ensures held { IfOk result (λ levels. images_kept levels.items ≡ map (λ _. set.empty) (slots_of book.now)) }
    ensures bits { IfOk result (λ levels. AllByRecursion (HasBits steps) levels.items) }
{
    let count = book.levels();
    let mut levels = Vec::with_capacity(alloc, count as usize)?;
    for k in 0..count {
        levels.push(LevelHeld {
            slots: book.level(k).slots,
            images: Positions::new(alloc, steps)?,
        })?;
    }
    Ok(levels)
}

// The level to which an action adds an image, 0 if there is none.
fn target(action: &Action) -> u8
    ensures { result ≡ target action.now }
{
    match *action {
        Action::Forward {
            keep: Keep::Store(level),
            ..
        } => level,
        Action::Copy {
            dest: Dest::Level(level),
            ..
        } => level,
        Action::Move {
            dest: Dest::Level(level),
            ..
        } => level,
        _ => 0,
    }
}
