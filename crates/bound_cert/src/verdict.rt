// The answers of a check of a certificate.

use table_clauses::Entry;

/// The lists among which one is least.
#[derive(Clone, Copy, PartialEq, Eq)]
pub enum Class {
    /// All valid lists, by their forward steps.
    Valid,
    /// The multistage class, by its costs.
    Multistage,
    /// The nested class, by its costs.
    Nested,
    /// The disk class, by its costs.
    Disk,
}

/// Why a certificate isn't accepted.
#[derive(Clone, Copy, PartialEq, Eq)]
pub enum Reason {
    /// The list isn't valid.
    Invalid,
    /// The tables aren't for these steps and this book, or are for more than can be built.
    WrongShape,
    /// The list isn't in the certificate's class.
    OutsideClass,
    /// A clause fails here. For a threshold the table is 4, the free slots are the place's number, and the steps are 0.
    Inequality(Entry),
    /// For a certificate of Revolve the list takes `cost` forward steps, which differ from `value`. That is the
    /// certificate's value; where they equal it, it is the bound of its `k`. For tables the list costs `cost`, and the
    /// top entry is `value`. There 18,446,744,073,709,551,615 means Never.
    ValueDiffers { cost: u64, value: u64 },
}

/// What a check of a certificate answers.
#[derive(Clone, Copy, PartialEq, Eq)]
pub enum CertVerdict {
    /// The list is the least of this class.
    Least(Class),
    /// The certificate isn't accepted, for this reason.
    Not(Reason),
}
