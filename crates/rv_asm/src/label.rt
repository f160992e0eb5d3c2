// Labels by their names.
ghost use Rattle.std.specs.Prelude.{◌≡◌, ℕ, List, Some, None, OnOk, if◌then◌else◌};
ghost use Rattle.std.specs.Str.{bytes_eq};
ghost use Rattle.std.specs.Option.{option_or};
ghost use Rattle.rv_asm.specs.LabelMap.{names_at};

use std::alloc::{AllocError, Global};
use std::collections::HashMap;

// A label: the number of its line, and how many words come before it.
#[derive(Clone, Copy)]
pub(crate) struct Label {
    pub line: u32,
    pub place: u32,
}

// The first label of each name.
#[derive(Drop)]
pub(crate) struct Labels<'a> {
    pub by_name: HashMap<&'a [u8], Label>,
}

impl<'a> Labels<'a> {
    pub(crate) fn new(alloc: Global) -> Labels<'a>
        ensures { (name : List ℕ) → names_at result.by_name name ≡ None }
    {
        Labels {
            by_name: HashMap::new(alloc),
        }
    }

    // The label with a name.
    pub(crate) fn get(&self, name: &[u8]) -> Option<Label>
        ensures { result ≡ names_at self.now.by_name name.now }
    {
        self.by_name.get(name).copied()
    }

    // Adds a label, unless there is one with its name.
    pub(crate) fn add(&mut self, name: &'a [u8], label: Label) -> Result<(), AllocError>
        ensures { OnOk result ((q : List ℕ) → names_at self.new.by_name q
            ≡ option_or (names_at self.old.by_name q) (if bytes_eq q name.now then Some label else None)) }
    {
        if !self.by_name.contains_key(name) {
            self.by_name.insert(name, label)?;
        }
        Ok(())
    }
}
