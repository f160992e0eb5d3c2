// Laws of requests and decisions. Each function does nothing; its contract is the law.
ghost use Rattle.std.specs.Prelude.{◌≡◌, ◌⊎◌, ℕ, ◌+◌, ◌≤◌, ◌++◌, List, [], ◌∷◌, length, take, Option};
ghost use Rattle.plan_types.specs.declared.action.Action.{Action};
ghost use Rattle.plan_types.specs.declared.limits.TheConstants.{MOST_STEPS};
ghost use Rattle.level_book.specs.Prelude.{BookCosts, slots_of, names_of, total_room, IsBookText, forward, cost, Disk, Nested, Configuration, start, Leads, Valid};
ghost use Rattle.action_text.specs.Prelude.{IsSchedule};
ghost use Rattle.binomials.specs.Prelude.{least_advances};
ghost use Rattle.revolve_gen.specs.Prelude.{IsMultistage, revolve_list};
ghost use Rattle.cost_tables.specs.Prelude.{TableRows};
ghost use Rattle.disk_gen.specs.Prelude.{periodic_list, DiskRows};
ghost use Rattle.rv_machine.specs.Prelude.{MachineState};
ghost use Rattle.keepers.specs.Prelude.{Tells};
ghost use Rattle.cert_text.specs.declared.certificate.Certificate.{Certificate};
ghost use Rattle.cert_text.specs.Prelude.{pieces, IsCertificateText};
ghost use Rattle.bound_cert.specs.Prelude.{class_of, IsAccepted, IsLeastOf};
ghost use Rattle.reverse_runner.specs.Prelude.{Holdings};
ghost use Rattle.reverse_queries.specs.Prelude.{CollidesOn, IsOut, WritesIn, ChangesIn, IsLast, front_to, up_to};
ghost use Rattle.reverse_console.specs.declared.order.Order.{Order};
ghost use Rattle.reverse_console.specs.Prelude.{MarkPlan, MarksTell};
ghost use Rattle.endings.specs.declared.ended.Ended.{Ended};
ghost use Rattle.endings.specs.Prelude.{ended_of, done};
ghost use Rattle.requests.specs.declared.question.Question.TheVariants.{State, LastWrite, LastChange};
ghost use Rattle.requests.specs.Prelude.{Choice, Request, Says, says_raw, stack_pages, unit_count};
ghost use Rattle.cert_text.specs.declared.certificate.Certificate.TheVariants as certified;
ghost use Rattle.reversal.specs.Prelude.{DecisionsExist, Decision, accept, least_line, DecidesCertify, in_units, IsStartOf, AreItemsOf, DecidesOver, course_of, Decides, EndsBy, DecidesPlanRevolve, DecidesPlanMultistage, DecidesPlanDisk, DecidesPlanHrevolve, DecidesPlanPeriodic, list_pieces, plan_pieces, certificate_of, SaysAgain, Run, Job, perform, ask as ask_job, console, write, last_of, state_of, unit_state, Begins, OrdersCollide, ShowsItsStatesOrCollides, WritesTheBeginningOrCollides, AreOfOrders, of_run, WentAbout, AnyMark, WritesAnswers, console_course, asking, performing, AllLevels, SparesNext, UnreachedNext, Went, IsFound, ComesTo, GoesOver, IsWithinSlots, Moment, NothingRises, AllTell, line_of, lines_down, Adds, Shown, Done, Stops, FailsAt, DamagedAt, Halts, Deed, States, bytes_written, steps_made};

/// Words mean one request at most.
pub fn requests_are_unique()
    ensures { (words : List (List ℕ)) (r s : Request) → Says words r → Says words s → r ≡ s }
{}

/// A request has at most one decision, by the content of its inputs and the slots of the keepers.
pub fn decisions_are_unique()
    ensures { (r : Request) (given : List (Option (List ℕ))) (slots : List ℕ) (d e : Decision) → Decides r given slots d → Decides r given slots e → d ≡ e }
{}

/// Every request within its bounds has a decision, for any inputs and any slots of the keepers. No table of decisions
/// has a hole.
pub fn requests_come_to_decisions()
    ensures { DecisionsExist }
{}

/// The deeds of a decided job write its output, for any states that they show, and take its steps.
pub fn deeds_make_the_output()
    ensures bytes { (r : Request) (given : List (Option (List ℕ))) (slots : List ℕ) (job : Job) → Decides r given slots (accept job) →
        (shown : Shown) → bytes_written ((course_of job).deeds shown) ≡ (course_of job).output shown }
    ensures steps { (shown : Shown) (job : Job) → steps_made ((course_of job).deeds shown) ≡ (course_of job).steps shown }
{}

/// If a script was done over in-memory storage, each order was answered in the run. Just the answers were written.
pub fn scripts_write_the_answers_to_their_orders()
    ensures { (first : MachineState) (items : List (List ℕ)) (p : MarkPlan) (orders : List Order) (shown : Shown) (old new : Moment) →
        MarksTell p old.images → Done (console_course first items p orders) shown old new → WritesAnswers first items p orders old new }
{}

/// An accepted job is done, if no fault counter rises and the keepers of its levels claim their content. No image is
/// damaged then.
pub fn accepted_jobs_are_done()
    ensures { (job : Job) (e : Ended) (old new : Moment) → EndsBy (accept job) e old new → AllTell (course_of job).levels old.images →
        NothingRises old new → (e ≡ ended_of done) × ((shown : Shown) × Done (course_of job) shown old new) }
{}

/// A certified list is the least. Suppose that a request to certify one is accepted. Then the schedule is a valid list,
/// and the text is a certificate. The class of the certificate is written, and the list is the least of that class.
pub fn certified_lists_are_least()
    ensures { (steps : ℕ) (book schedule certificate : List ℕ) (job : Job) → DecidesCertify steps book schedule certificate (accept job) →
        (b : BookCosts) × IsBookText book b × (list : List Action) × IsSchedule (names_of b) schedule list × Valid steps (slots_of b) list
        × (c : Certificate) × IsCertificateText steps b certificate c × (job ≡ write (least_line (class_of c) ∷ [])) × IsLeastOf (class_of c) steps b list }
{}

/// A plan of Revolve is the least. Suppose that a request for one is accepted. Then the plan of the book is written.
/// Its list is valid, and its certificate is accepted for it. No list that is valid for the book takes fewer forward
/// steps.
pub fn revolve_plans_are_least()
    ensures { (steps : ℕ) (book : List ℕ) (job : Job) → DecidesPlanRevolve steps book (accept job) →
        (b : BookCosts) × IsBookText book b × (job ≡ write (plan_pieces steps b)) × Valid steps (slots_of b) (revolve_list steps b)
        × IsAccepted (revolve_list steps b) steps b (certificate_of steps b)
        × ((other : List Action) → Valid steps (slots_of b) other → forward (revolve_list steps b) ≤ forward other) }
{}

/// A run by Revolve's list takes the fewest forward steps. Suppose that a request for one is accepted. Then that list
/// is performed. It is valid for the book, and takes N + t(N, c) forward steps with c slots of all levels. No list that
/// is valid for the book takes fewer.
pub fn revolve_runs_are_least()
    ensures { (options : List Choice) (steps : ℕ) (program : List ℕ) (journal : Option (List ℕ)) (book counts : List ℕ) (job : Job) →
        DecidesOver perform options steps program journal book None counts (accept job) →
        (b : BookCosts) × IsBookText book b × (start : MachineState) × IsStartOf (says_raw options) (stack_pages options) program start
        × (items : List (List ℕ)) × AreItemsOf journal items
        × (job ≡ perform (in_units (unit_count options) start items steps (slots_of b) (revolve_list steps b)))
        × Valid steps (slots_of b) (revolve_list steps b) × (1 ≤ steps → forward (revolve_list steps b) ≡ steps + least_advances steps (total_room b steps))
        × ((other : List Action) → Valid steps (slots_of b) other → forward (revolve_list steps b) ≤ forward other) }
{}

/// A periodic plan is valid, and reads as it was made. Suppose that a request for one is accepted. Then the text of the
/// book's periodic list is written. That list is valid for the book, and the text reads as it.
pub fn periodic_plans_are_read_again()
    ensures { (steps period : ℕ) (book : List ℕ) (job : Job) → steps ≤ MOST_STEPS → 1 ≤ period → DecidesPlanPeriodic steps period book (accept job) →
        (b : BookCosts) × IsBookText book b × (job ≡ write (list_pieces (names_of b) (periodic_list steps period b)))
        × Valid steps (slots_of b) (periodic_list steps period b)
        × ((shown : Shown) → IsSchedule (names_of b) ((course_of job).output shown) (periodic_list steps period b)) }
{}

/// The written text of a plan of Revolve reads as its list, and as its certificate.
pub fn plans_are_read_again()
    ensures { (steps : ℕ) (book : List ℕ) (job : Job) → steps ≤ MOST_STEPS → DecidesPlanRevolve steps book (accept job) →
        (b : BookCosts) × IsBookText book b × ((shown : Shown) →
        IsSchedule (names_of b) ((course_of job).output shown) (revolve_list steps b)
        × IsCertificateText steps b ((course_of job).output shown) (certificate_of steps b)) }
{}

/// A plan of H-Revolve costs the least of its class. Suppose that a request for one is accepted. Then a list of the
/// nested class is written, with a certificate that is accepted for it. No list of that class costs less by the book.
/// The written text reads as that list and that certificate.
pub fn hrevolve_plans_are_least()
    ensures { (steps : ℕ) (book : List ℕ) (job : Job) → steps ≤ 2048 → DecidesPlanHrevolve steps book (accept job) →
        (b : BookCosts) × IsBookText book b × (list : List Action) × (t : TableRows)
        × (job ≡ write (list_pieces (names_of b) list ++ pieces (certified.Nested t)))
        × Nested steps (slots_of b) list × IsAccepted list steps b (certified.Nested t)
        × ((other : List Action) → Nested steps (slots_of b) other → cost list b ≤ cost other b) × SaysAgain steps b job list (certified.Nested t) }
{}

/// A plan of DiskRevolve costs the least of its class. Suppose that a request for one is accepted. Then a list of the
/// disk class is written, with a certificate that is accepted for it. No list of that class costs less by the book. The
/// written text reads as that list and that certificate.
pub fn disk_plans_are_least()
    ensures { (steps : ℕ) (book : List ℕ) (job : Job) → steps ≤ 8192 → DecidesPlanDisk steps book (accept job) →
        (b : BookCosts) × IsBookText book b × (list : List Action) × (t : DiskRows) × (job ≡ write (list_pieces (names_of b) list ++ pieces (certified.Disk t)))
        × Disk steps (slots_of b) list × IsAccepted list steps b (certified.Disk t)
        × ((other : List Action) → Disk steps (slots_of b) other → cost list b ≤ cost other b) × SaysAgain steps b job list (certified.Disk t) }
{}

/// A multistage plan costs the least of its class. Suppose that a request for one is accepted. Then a list of the
/// multistage class is written, with a certificate that is accepted for it. No list of that class costs less by the
/// book. The written text reads as that list and that certificate.
pub fn multistage_plans_are_least()
    ensures { (steps : ℕ) (book : List ℕ) (job : Job) → DecidesPlanMultistage steps book (accept job) →
        (b : BookCosts) × IsBookText book b × (list : List Action) × (threshold : ℕ)
        × (job ≡ write (list_pieces (names_of b) list ++ pieces (certified.Places threshold)))
        × IsMultistage steps b list × IsAccepted list steps b (certified.Places threshold)
        × ((other : List Action) → IsMultistage steps b other → cost list b ≤ cost other b)
        × (steps ≤ MOST_STEPS → SaysAgain steps b job list (certified.Places threshold)) }
{}

/// During a run each level is within its slots, before each performed action and after the last.
pub fn runs_stay_within_their_slots()
    ensures { (run : Run) → Begins (perform run) →
        (actions : List Action) (held : Holdings) (states : States) (old : Moment) (through : GoesOver run actions old held states) →
        (done : ℕ) → done ≤ length actions → (c : Configuration) → Leads run.steps run.slots (start run.steps run.slots) (take done actions) c →
        IsWithinSlots run c (through.held done) old }
{}

/// Over any keepers, also over files, each state that a run shows is the run's with its number. This covers the
/// performed actions and the next one. A completed run wrote the lines of the run's states. Otherwise an action fetched
/// a collision: an image other than the run's state has, with the same SHA-256.
pub fn runs_show_their_states_or_collide()
    ensures shown { (run : Run) → Begins (perform run) →
        (performed : ℕ) (states : States) (old new : Moment) (went : Went AllLevels run performed states old new) →
        ShowsItsStatesOrCollides run performed states went.through.held }
    ensures shown_at_storage { (run : Run) → Begins (perform run) →
        (performed level : ℕ) (states : States) (old new : Moment) (went : Went (UnreachedNext level) run performed states old new) →
        ShowsItsStatesOrCollides run performed states went.through.held }
    ensures shown_in_memory { (run : Run) → Begins (perform run) →
        (performed : ℕ) (states : States) (old new : Moment) (went : Went SparesNext run performed states old new) →
        ShowsItsStatesOrCollides run performed states went.through.held }
    ensures lines { (run : Run) → Begins (perform run) →
        (shown : Shown) (old new : Moment) (done : Done (performing run) shown old new) →
        Tells old.told new.told (Adds (lines_down (state_of run) (last_of run)))
        ⊎ CollidesOn (unit_state run) run.list done.held.through.held }
{}

/// Over any keepers, let a run stop: output or storage failed, an image was damaged, or memory ran out. The written
/// bytes are the beginning of the lines of the run's states. Otherwise an action fetched a collision.
pub fn runs_write_the_beginning_of_their_lines_or_collide()
    ensures at_a_write { (run : Run) → Begins (perform run) →
        (shown : Shown) (performed : ℕ) (old new : Moment) (stops : Stops (performing run) shown performed old new) →
        WritesTheBeginningOrCollides run performed stops.held.through.held old new }
    ensures at_storage { (run : Run) → Begins (perform run) →
        (shown : Shown) (performed level : ℕ) (old new : Moment) (fails : FailsAt (performing run) shown performed level old new) →
        WritesTheBeginningOrCollides run performed fails.held.through.held old new }
    ensures at_damage { (run : Run) → Begins (perform run) →
        (shown : Shown) (performed level : ℕ) (put got : List ℕ) (old new : Moment) (damaged : DamagedAt (performing run) shown performed level put got old new) →
        WritesTheBeginningOrCollides run performed damaged.held.through.held old new }
    ensures in_memory { (run : Run) → Begins (perform run) →
        (shown : Shown) (performed : ℕ) (old new : Moment) (halts : Halts (performing run) shown performed old new) →
        WritesTheBeginningOrCollides run performed halts.held.through.held old new }
{}

/// Over any keepers, the line that answers a question is that of the run's state. The number is that of the last step
/// of the run that writes or changes the word. Otherwise an action fetched a collision.
pub fn questions_are_answered_in_the_run_or_collide()
    ensures state { (run : Run) (place : ℕ) → Begins (ask_job (State place) run) →
        (shown : Shown) (old new : Moment) (done : Done (asking (State place) run) shown old new) →
        Tells old.told new.told (Adds (line_of (state_of run) place))
        ⊎ CollidesOn (unit_state run) (front_to run.unit run.steps place run.list) done.answered.2.through.held }
    ensures state_at_a_write { (run : Run) (place : ℕ) → Begins (ask_job (State place) run) →
        (performed : ℕ) (state : MachineState) (old : Moment) (comes : ComesTo (IsOut run.unit run.steps place state) run performed old) →
        (state ≡ state_of run place) ⊎ CollidesOn (unit_state run) (take performed run.list) comes.through.held }
    ensures last_write { (run : Run) (address : ℕ) → Begins (ask_job (LastWrite address) run) →
        (answer : Option ℕ) (old new : Moment)
        (found : IsFound (λ states. IsLast (WritesIn states run.journal address) (last_of run) answer) run answer old new) →
        IsLast (WritesIn (state_of run) run.journal address) (last_of run) answer
        ⊎ CollidesOn (unit_state run) (up_to run.unit run.steps answer run.list) found.2.through.held }
    ensures last_change { (run : Run) (address : ℕ) → Begins (ask_job (LastChange address) run) →
        (answer : Option ℕ) (old new : Moment)
        (found : IsFound (λ states. IsLast (ChangesIn states address) (last_of run) answer) run answer old new) →
        IsLast (ChangesIn (state_of run) address) (last_of run) answer
        ⊎ CollidesOn (unit_state run) (up_to run.unit run.steps answer run.list) found.2.through.held }
{}

/// Over any keepers, each order's answer and its text are those of an index into the run's states. Otherwise a
/// collision came back for a mark: bytes other than its image, with the same SHA-256.
pub fn scripts_are_answered_in_the_run_or_collide()
    ensures { (first : MachineState) (items : List (List ℕ)) (p : MarkPlan) (orders : List Order) (deeds : List Deed) (old new : Moment) →
        Begins (console first items p orders) → (went : WentAbout first items p orders deeds AnyMark old new) →
        AreOfOrders p (of_run first items p.count) orders 0 deeds ⊎ OrdersCollide first p went.from (AnyMark went.from) orders 0 deeds went.seen }
{}
