// An entry of a table.
ghost use Rattle.std.specs.Prelude.{All};
ghost use Rattle.cost_tables.specs.TableRows.{value_of};
ghost use Rattle.cost_tables.specs.Shapes.{IsShort};

/// The cost of reversing a stretch, in the units of the book.
#[derive(Clone, Copy, Debug, PartialEq, Eq)]
pub enum Cost {
    /// So much.
    Number(u64),
    /// It can't be reversed. This is above every number.
    Never,
}

impl Cost {
    /// Does nothing. Its contract is a law: a cost has 64 bits.
    pub fn is_short(self)
        ensures { IsShort (value_of self) }
    {
        match self {
            Cost::Number(_n) => {}
            Cost::Never => {}
        }
    }
}

/// Changes nothing. Its contract is a law: each of some costs has 64 bits.
pub fn are_short(costs: &[Cost])
    ensures { All (λ cost. IsShort (value_of cost)) costs.now }
{
    for cost in costs {
        cost.is_short();
    }
}
