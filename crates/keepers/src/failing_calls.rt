// Calls that are made to fail.
ghost use Rattle.std.specs.Prelude.{◌≡◌, ◌↔◌, [], IsTrue, Contains};
ghost use Rattle.keepers.specs.Counts.{raised};

use std::alloc::Global;

// Calls, counted from 1, of which the listed ones are to fail. Faults are counted too.
#[derive(Drop)]
pub(crate) struct FailingCalls {
    pub(crate) listed: Vec<u64>,
    pub(crate) count: u64,
    pub(crate) faults: u64,
}

impl FailingCalls {
    // No call was made, and none is to fail.
    pub(crate) fn new(alloc: Global) -> Self
        ensures listed { result.listed.items ≡ [] }
        ensures count { result.count ≡ 0 }
        ensures faults { result.faults ≡ 0 }
    {
        Self {
            listed: Vec::new(alloc),
            count: 0,
            faults: 0,
        }
    }

    // Counts a call, and returns whether it is to fail.
    pub(crate) fn next_fails(&mut self) -> bool
        ensures listed { IsTrue result ↔ Contains self.old.listed.items (raised self.old.count 1) }
        ensures counted { self.new ≡ record self.old { count = raised self.old.count 1 } }
    {
        self.count = self.count.saturating_add(1);
        self.listed.contains(&self.count)
    }

    pub(crate) fn count_fault(&mut self)
        ensures { self.new ≡ record self.old { faults = raised self.old.faults 1 } }
    {
        self.faults = self.faults.saturating_add(1);
    }
}
