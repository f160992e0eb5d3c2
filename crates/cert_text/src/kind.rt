// The kinds of certificates.
ghost use Rattle.std.specs.Prelude.{◌≡◌, ◌↔◌, true};
ghost use Rattle.cert_text.specs.Grammar.{Fits};

use cost_tables::Tables;
use disk_gen::DiskTables;
use level_book::Book;

// The kind of a certificate, which is the first word of its text.
#[derive(Clone, Copy)]
pub(crate) enum Kind {
    Revolve,
    Places,
    Nested,
    Disk,
}

impl Kind {
    // Whether the tables of this kind, if it has any, can be built.
    pub(crate) fn fits(self, steps: u32, book: &Book) -> bool
        ensures { result ≡ true ↔ Fits self steps book.now }
    {
        match self {
            Kind::Revolve | Kind::Places => true,
            Kind::Nested => Tables::fits(steps, book),
            Kind::Disk => DiskTables::fits(steps, book),
        }
    }
}
