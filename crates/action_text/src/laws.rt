// Laws of the texts of schedules. Each function does nothing; its contract is the law.
ghost use Rattle.action_text.specs.Laws.{OneSchedule, OneFault, SchedulesHaveNoFault, ScheduleOrFault, CanonicalIsRead, OneSpelling};

/// Bytes mean one schedule at most.
pub fn texts_say_one_schedule()
    ensures { OneSchedule }
{}

/// Bytes have at most one first fault, and those of a schedule have none.
pub fn faults_are_unique()
    ensures one { OneFault }
    ensures none { SchedulesHaveNoFault }
{}

/// All bytes are a schedule or have a first fault.
pub fn bytes_are_a_schedule_or_have_a_fault()
    ensures { ScheduleOrFault }
{}

/// The canonical text of a list reads as that list, also with lines of a certificate after it.
pub fn canonical_texts_are_read()
    ensures { CanonicalIsRead }
{}

/// Two actions with one canonical spelling are equal.
pub fn spellings_are_told_apart()
    ensures { OneSpelling }
{}
