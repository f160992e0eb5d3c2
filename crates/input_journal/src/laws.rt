// Laws of the form of a journal and of its faults. Each function does nothing; its contract is the law.
ghost use Rattle.input_journal.specs.Laws.{OneSpelling, OneForm, OneFault, JournalsHaveNoFault, JournalOrFault};

/// Bytes are those of one journal at most.
pub fn journals_are_told_apart()
    ensures { OneSpelling }
{}

/// A journal has one spelling.
pub fn spellings_are_unique()
    ensures { OneForm }
{}

/// Bytes have one first fault at most, and those of a journal have none.
pub fn faults_are_unique()
    ensures one { OneFault }
    ensures none { JournalsHaveNoFault }
{}

/// Every list of bytes is a journal or has a first fault.
pub fn bytes_are_a_journal_or_have_a_fault()
    ensures { JournalOrFault }
{}
