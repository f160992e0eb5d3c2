// A gate at which workers meet.
use plan_types::Gate;
use std::alloc::{AllocError, Global};
use std::sync::atomic::{AtomicBool, AtomicU32, Ordering};
use std::thread;

// How often a worker checks whether the others have come.
const LOOKS: u32 = 1_000_000;

/// In each of its calls but the first few, a worker waits until all workers have made as many. If fewer threads than
/// workers run at once, one of them waits in vain.
#[derive(Drop)]
pub(crate) struct Barrier {
    free: u32,
    calls: Vec<AtomicU32>,
    missed: AtomicBool,
}

impl Barrier {
    /// A gate for so many workers. Each has so many calls in which it doesn't wait.
    pub(crate) fn new(alloc: Global, workers: u32, free: u32) -> Result<Barrier, AllocError> {
        let mut calls = Vec::with_capacity(alloc, workers as usize)?;
        for _ in 0..workers {
            calls.push(AtomicU32::new(0))?;
        }
        Ok(Barrier {
            free,
            calls,
            missed: AtomicBool::new(false),
        })
    }

    /// How many calls each worker made, if all made equally many and none waited in vain.
    pub(crate) fn calls(&self) -> Option<u32> {
        let count = self.calls.first()?.load(Ordering::SeqCst);
        for calls in &self.calls {
            if calls.load(Ordering::SeqCst) != count {
                return None;
            }
        }
        match self.missed.load(Ordering::SeqCst) {
            true => None,
            false => Some(count),
        }
    }

    // Whether all workers have made so many calls.
    fn have_come(&self, count: u32) -> bool {
        for calls in &self.calls {
            if calls.load(Ordering::SeqCst) < count {
                return false;
            }
        }
        true
    }

    // Whether all make so many calls while this worker waits.
    fn meets(&self, count: u32) -> bool {
        for _ in 0..LOOKS {
            if self.have_come(count) {
                return true;
            }
            thread::yield_now();
        }
        false
    }
}

impl Gate for Barrier {
    fn enter(&self, piece: u32) {
        let Some(calls) = self.calls.get(piece as usize) else {
            self.missed.store(true, Ordering::SeqCst);
            return;
        };
        let count = calls.fetch_add(1, Ordering::SeqCst).saturating_add(1);
        if count > self.free && !self.meets(count) {
            self.missed.store(true, Ordering::SeqCst);
        }
    }
}
