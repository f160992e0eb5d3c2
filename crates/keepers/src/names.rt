// The requested names.
ghost use Rattle.std.specs.Prelude.{◌≡◌, [], ◌∷◌, ◌++◌, OnOk, OnErr, ℕ, List, map};

use std::alloc::{AllocError, Global};
use std::marker::Model;

/// Names, in the order of the requests.
#[derive(Drop)]
pub(crate) struct Names {
    alloc: Global,
    list: Vec<Vec<u8>>,
}

impl Names {
    pub(crate) fn new(alloc: Global) -> Self
        ensures { result ≡ [] }
    {
        Self {
            alloc,
            list: Vec::new(alloc),
        }
    }

    pub(crate) fn push(&mut self, name: &[u8]) -> Result<(), AllocError>
        ensures ok { OnOk result (self.new ≡ self.old ++ name.now ∷ []) }
        ensures err { OnErr result (self.new ≡ self.old) }
    {
        let copy = Vec::from_slice(self.alloc, name)?;
        self.list.push(copy)?;
        Ok(())
    }
}

impl Model for Names {
    ghost Value = { List (List ℕ) };

    ghost view = { λ n. map (λ name. name.items) n.list.items };
}
