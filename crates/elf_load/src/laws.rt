// Laws of programs and of their faults. Each function does nothing; its contract is the law.
ghost use Rattle.elf_load.specs.Laws.{OneStart, OneFault, ProgramsHaveNoFault, StartOrFault, StartsAreStates, OneRawStart, OneRawFault, RawProgramsHaveNoFault, RawStartOrFault, RawStartsAreStates};

/// An ELF file has one start state at most.
pub fn starts_are_unique()
    ensures { OneStart }
{}

/// A file has one first fault at most, and none if it has a start state.
pub fn faults_are_unique()
    ensures one { OneFault }
    ensures none { ProgramsHaveNoFault }
{}

/// Every file has a start state or a fault.
pub fn files_have_a_start_or_a_fault()
    ensures { StartOrFault }
{}

/// The start state of a file of bytes is a machine state.
pub fn starts_are_machine_states()
    ensures { StartsAreStates }
{}

/// Raw words have one start state at most.
pub fn raw_starts_are_unique()
    ensures { OneRawStart }
{}

/// Raw words have one first fault at most, and none if they have a start state.
pub fn raw_faults_are_unique()
    ensures one { OneRawFault }
    ensures none { RawProgramsHaveNoFault }
{}

/// All bytes have a start state of raw words or a fault.
pub fn raw_words_have_a_start_or_a_fault()
    ensures { RawStartOrFault }
{}

/// The start state of raw words is a machine state.
pub fn raw_starts_are_machine_states()
    ensures { RawStartsAreStates }
{}
