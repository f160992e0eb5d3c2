// The marks of a run: states at equal distances.
ghost use Rattle.std.specs.Prelude.{◌≡◌, ℕ, ◌+◌, ◌-◌, ◌*◌, ◌<◌, ◌≤◌, ◌^◌, IfOk, length, max, min, slice_index_or, vec_len};
ghost use Rattle.rv_pages.specs.Prelude.{page_numbers};
ghost use Rattle.rv_machine.specs.Prelude.{MachineState};
ghost use Rattle.run_timeline.specs.Mark.{HaveRoom};

use crate::mark::Mark;
use rv_machine::State;
use std::alloc::{AllocError, Global};

// Marks, from the first state of a run on. There is room for a bounded number of states. If it is full at the next
// mark, every second mark is dropped.
#[derive(Drop)]
pub(crate) struct Marks {
    marks: Vec<Mark>,
    // How many of them are in use, and the steps from one to the next.
    count: u32,
    distance: u32,
    ghost some: { 1 ≤ count },
    ghost few: { count ≤ vec_len marks },
    ghost room: { 2 ≤ vec_len marks },
    ghost small: { vec_len marks < 2 ^ 32 },
    ghost apart: { 1 ≤ distance },
}

impl Marks {
    ghost use Rattle.run_timeline.specs.Mark.{IsMarkOf};
    ghost use Rattle.run_timeline.specs.RunMarks.{AreMarks, Spans, next_mark};

    // Room for so many states. The first state is the one mark.
    pub fn begin(alloc: Global, first: &State, capacity: u32) -> Result<Marks, AllocError>
        requires { 2 ≤ capacity }
        ensures marks { IfOk result (λ m. (states : ℕ → MachineState) → first.now ≡ states 0 → AreMarks states m) }
        ensures spans { IfOk result (λ m. Spans m 0) }
        ensures room { IfOk result (λ m. length m.marks.items ≡ capacity) }
    {
        let mut marks = rooms(alloc, first, capacity)?;
        marks[0].keep(first);
        Ok(Marks {
            marks,
            count: 1,
            distance: 1,
        })
    }

    // Where the next mark will be.
    pub fn next(&self) -> u64
        ensures { result ≡ next_mark self.now }
    {
        self.count as u64 * self.distance as u64
    }

    // How far to go towards a place: to the next mark, if that comes first.
    pub fn end_towards(&self, to: u32) -> u32
        ensures { result ≡ min to (next_mark self.now) }
    {
        self.next().min(to as u64) as u32
    }

    // How far to go from a place that the marks span towards another: to the next mark, if that comes first.
    pub fn end_after(&self, place: u32, to: u32) -> u32
        requires known { place < next_mark self.now }
        requires before { place < to }
        ensures further { place < result }
        ensures at_most { result ≤ min to (next_mark self.now) }
        ensures near { result ≤ place + self.now.distance }
    {
        let (_, mark) = self.last_to(place);
        (mark as u64 + self.distance as u64).min(to as u64) as u32
    }

    // The last mark up to a place, and its place.
    pub fn last_to(&self, place: u32) -> (&Mark, u32)
        ensures mark { (states : ℕ → MachineState) → AreMarks states self.now → IsMarkOf (states result.1) result.0.now }
        ensures room { (n : ℕ) → HaveRoom n self.now.marks.items → result.0.now.pages ≡ n }
        ensures at_most { result.1 ≤ place }
        ensures last { result.1 ≤ (self.now.count - 1) * self.now.distance }
        ensures near { place < next_mark self.now → place - result.1 < self.now.distance }
    {
        let index = (place / self.distance).min(self.count - 1);
        (&self.marks[index as usize], index * self.distance)
    }

    // Passes a place of the run, which may be further than it has reached. If a mark belongs there, the state is
    // marked.
    pub fn pass(&mut self, state: &State, place: u32)
        requires before { place ≤ next_mark self.old }
        requires pages { HaveRoom (length (page_numbers state.now.memory)) self.old.marks.items }
        ensures marks { (states : ℕ → MachineState) → AreMarks states self.old → state.now ≡ states place → AreMarks states self.new }
        ensures spans { (reached : ℕ) → Spans self.old reached → Spans self.new (max reached place) }
        ensures room { length self.new.marks.items ≡ length self.old.marks.items }
    {
        if self.next() == place as u64 {
            self.make_room();
            self.add(state, place);
        }
    }

    // Marks a state, if a mark belongs there.
    fn add(&mut self, state: &State, place: u32)
        requires before { place ≤ next_mark self.old }
        requires room { self.old.count < vec_len self.old.marks }
        requires pages { HaveRoom (length (page_numbers state.now.memory)) self.old.marks.items }
        ensures marks { (states : ℕ → MachineState) → AreMarks states self.old → state.now ≡ states place → AreMarks states self.new }
        ensures before { place < next_mark self.new }
        ensures last { (self.old.count - 1) * self.old.distance ≤ place → (self.new.count - 1) * self.new.distance ≤ place }
        ensures distance { self.new.distance ≡ self.old.distance }
        ensures room { length self.new.marks.items ≡ length self.old.marks.items }
    {
        if self.next() == place as u64 {
            let spare = &mut self.marks[self.count as usize];
            spare.keep(state);
            self.count += 1;
        }
    }

    // Makes room for one more mark.
    fn make_room(&mut self)
        requires { next_mark self.old < 2 ^ 32 }
        ensures fits { self.new.count < vec_len self.new.marks }
        ensures marks { (states : ℕ → MachineState) → AreMarks states self.old → AreMarks states self.new }
        ensures no_nearer { next_mark self.old ≤ next_mark self.new }
        ensures last { (self.new.count - 1) * self.new.distance ≤ (self.old.count - 1) * self.old.distance }
        ensures near { self.new.distance * length self.old.marks.items ≤ max (self.old.distance * length self.old.marks.items) (2 * next_mark self.old) }
        ensures room { length self.new.marks.items ≡ length self.old.marks.items }
        ensures pages { (n : ℕ) → HaveRoom n self.old.marks.items → HaveRoom n self.new.marks.items }
    {
        if self.count as usize == self.marks.len() {
            self.thin();
        }
    }

    // Drops every second mark.
    fn thin(&mut self)
        requires many { 2 ≤ self.old.count }
        requires near { 2 * self.old.distance < 2 ^ 32 }
        ensures count { self.new.count < self.old.count }
        ensures distance { self.new.distance ≡ 2 * self.old.distance }
        ensures marks { (states : ℕ → MachineState) → AreMarks states self.old → AreMarks states self.new }
        ensures no_nearer { next_mark self.old ≤ next_mark self.new }
        ensures last { (self.new.count - 1) * self.new.distance ≤ (self.old.count - 1) * self.old.distance }
        ensures pages { (n : ℕ) → HaveRoom n self.old.marks.items → HaveRoom n self.new.marks.items }
        ensures room { length self.new.marks.items ≡ length self.old.marks.items }
    {
        let count = self.count - self.count / 2;
        gather(&mut self.marks, count as usize);
        self.count = count;
        self.distance *= 2;
    }
}

// Room for so many states with as many pages as this one.
fn rooms(alloc: Global, state: &State, count: u32) -> Result<Vec<Mark>, AllocError>
    ensures len { IfOk result (λ v. vec_len v ≡ count) }
    ensures room { IfOk result (λ v. HaveRoom (length (page_numbers state.now.memory)) v.items) }
{
    let mut marks = Vec::with_capacity(alloc, count as usize)?;
    for _ in 0..count {
        marks.push(Mark::begin(alloc, state)?)?;
    }
    Ok(marks)
}

// Brings every second mark, so many of them, to the front.
fn gather(marks: &mut Vec<Mark>, count: usize)
    requires { 2 * count ≤ vec_len marks.old + 1 }
    ensures gathered { (i : ℕ) (d : Mark) → i < count → slice_index_or marks.new.items i d ≡ slice_index_or marks.old.items (2 * i) d }
    ensures pages { (n : ℕ) → HaveRoom n marks.old.items → HaveRoom n marks.new.items }
    ensures len { vec_len marks.new ≡ vec_len marks.old }
{
    for i in 1..count {
        marks.swap(i, 2 * i);
    }
}
