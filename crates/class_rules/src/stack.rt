// The images that are held, in the order of their storing.
ghost use Rattle.std.specs.Prelude.{◌≡◌, ◌↔◌, [], ◌∷◌, IfOk, IsTrue};
ghost use Rattle.level_book.specs.Prelude.{GoesOnTop, IsNewest, older_than_newest};
ghost use Rattle.class_rules.specs.Stacks.{images_of, IsStack};

use std::alloc::{AllocError, Global};

// An image that is held.
#[derive(Clone, Copy, PartialEq, Eq)]
pub struct Held {
    pub position: u32,
    pub level: u8,
}

// The newest image is apart from the older ones, so the one below it is ready after a pop.
#[derive(Drop)]
pub struct Stack {
    pub older: Vec<Held>,
    pub newest: Option<Held>,
}

impl Stack {
    // Nothing is held.
    pub fn new(alloc: Global) -> Stack
        ensures empty { images_of result ≡ [] }
        ensures is { IsStack result }
    {
        Stack {
            older: Vec::new(alloc),
            newest: None,
        }
    }

    // Whether an image of state n on level k may be stored.
    pub fn goes_on_top(&self, n: u32, k: u8) -> bool
        ensures { IsTrue result ↔ GoesOnTop (images_of self.now) n k }
    {
        match self.newest {
            Some(newest) => newest.position < n && k <= newest.level,
            None => true,
        }
    }

    // Whether the newest image is that of state n on level k.
    pub fn is_newest(&self, n: u32, k: u8) -> bool
        ensures { IsTrue result ↔ IsNewest (images_of self.now) n k }
    {
        match self.newest {
            Some(newest) => newest.position == n && newest.level == k,
            None => false,
        }
    }

    // An image of state n on level k is stored.
    pub fn push(&mut self, n: u32, k: u8) -> Result<(), AllocError>
        requires { IsStack self.old }
        ensures images { IfOk result (λ _. images_of self.new ≡ record { position = n; level = k } ∷ images_of self.old) }
        ensures is { IfOk result (λ _. IsStack self.new) }
    {
        if let Some(newest) = self.newest {
            self.older.push(newest)?;
            self.newest = Some(Held {
                position: n,
                level: k,
            });
            return Ok(());
        }
        self.newest = Some(Held {
            position: n,
            level: k,
        });
        Ok(())
    }

    // The newest image goes.
    pub fn pop(&mut self)
        requires { IsStack self.old }
        ensures images { images_of self.new ≡ older_than_newest (images_of self.old) }
        ensures is { IsStack self.new }
    {
        self.newest = self.older.pop();
    }
}
