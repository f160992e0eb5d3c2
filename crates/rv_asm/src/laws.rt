// Laws of sources and of canonical lines. Each function does nothing; its contract is the law.
ghost use Rattle.rv_asm.specs.Laws.{OneMeaning, OneFault, MeaningsHaveNoFault, MeaningOrFault, OneLine, SomeLine, CanonicalIsAssembled};

/// A text means one list of words at most.
pub fn texts_mean_one_list()
    ensures { OneMeaning }
{}

/// A text has one fault at most, and none where it means some words.
pub fn faults_are_unique()
    ensures one { OneFault }
    ensures none { MeaningsHaveNoFault }
{}

/// Each text means words, or has a fault.
pub fn texts_mean_words_or_have_a_fault()
    ensures { MeaningOrFault }
{}

/// A word of 32 bits has one canonical line and no other.
pub fn words_have_one_line()
    ensures one { OneLine }
    ensures some { SomeLine }
{}

/// The canonical lines of words, a line end after each, assemble to these words.
pub fn canonical_lines_are_assembled()
    ensures { CanonicalIsAssembled }
{}
