// A visitor that passes on one of the states that it gets.
ghost use Rattle.std.specs.Prelude.{◌≡◌, false};
ghost use Rattle.reverse_queries.specs.PickVisitor.{PassesOn};

use input_journal::Journal;
use reverse_runner::{KnownState, VisitFault, Visitor};

// Passes on the state with one number, and no other.
#[derive(Drop)]
pub(crate) struct Picked<'a, V: Visitor> {
    pub place: u32,
    pub visitor: &'a mut V,
    pub passed: bool,
}

impl<'a, V: Visitor> Picked<'a, V> {
    // A visitor that has passed on nothing yet.
    pub fn new(place: u32, visitor: &'a mut V) -> Picked<'a, V>
        ensures place { result.place ≡ place }
        ensures same_reference { result.visitor.ghost_name ≡ visitor.entry.ghost_name }
        ensures same { result.visitor.now ≡ visitor.old }
        ensures nothing { result.passed ≡ false }
    {
        Picked {
            place,
            visitor,
            passed: false,
        }
    }
}

impl<'a, V: Visitor> Visitor for Picked<'a, V> {
    ghost got = { λ p n s journal q. PassesOn V.got p n s journal q };

    ghost missed = { λ p n s journal q. (n ≡ p.place) × (q.visitor.ghost_name ≡ p.visitor.ghost_name) × V.missed p.visitor.now n s journal q.visitor.now };

    ghost fault_count = { λ p. V.fault_count p.visitor.now };

    fn state(&mut self, n: u32, state: &KnownState, journal: &Journal) -> Result<(), VisitFault> {
        if n != self.place {
            return Ok(());
        }
        self.passed = true;
        self.visitor.state(n, state, journal)
    }
}
