// Consequences of what levels hold when a call begins, and when it ends.
ghost use Rattle.std.specs.Prelude.{◌≡◌, ◌⊎◌, ℕ, ◌<◌, ◌≤◌, List, Option, Some, length, map, slice_get, None};
ghost use Rattle.std.specs.FinMap as finmap;
ghost use Rattle.level_book.specs.Prelude.{held_on, Valid};
ghost use Rattle.keepers.specs.declared.stdout_sink.StdoutSink.{StdoutSink as AStdoutSink};
ghost use Rattle.keepers.specs.Prelude.{AnyKeeper as AnAnyKeeper, Rose, Files, told_of, slots_of, place_of};
ghost use Rattle.reverse_runner.specs.Prelude.{by_number};
ghost use Rattle.endings.specs.declared.ended.Ended.{Ended as AnEnded};
ghost use Rattle.endings.specs.Prelude.{done, no_memory, ended_of};
ghost use Rattle.requests.specs.Prelude.{Asks, inputs_of, contents, Request as ARequest};
ghost use Rattle.reversal.specs.Prelude.{performing, Shown, Done, course_of, Decides, StayInPlace, Job as AJob, Run, unit_state, Moment, NothingRises, AllTell, accept};
ghost use Rattle.reversal_program.specs.LevelStart.{AllBegin, HaveNoFiles};
ghost use Rattle.reversal_program.specs.Files.{LevelHoldsJust};
ghost use Rattle.reversal_program.specs.Run.{IsRun, seen};

use keepers::{Disk, Output};
use reversal::laws::{accepted_jobs_are_done, decisions_are_unique};

/// If the folders have no image of their levels, every level begins empty, and claims so.
pub fn levels_without_files_begin_empty<D: Disk>()
    ensures { (level : ℕ) (folders : List (Option (List ℕ))) (disks : List D) (before : List (AnAnyKeeper D)) →
        AllBegin D.told level folders disks before → HaveNoFiles D.told level folders disks →
        (k : ℕ) → k < length before → by_number None (told_of D.told) before k ≡ Some finmap.empty }
{}

/// Let the folders have no image of their levels. A completed run leaves in each folder just the images that its
/// schedule leaves on that level. Each is in the file of its own slot.
pub fn runs_leave_the_images_of_their_schedule<D: Disk>()
    ensures { (folders : List (Option (List ℕ))) (disks : List D) (before after : List (AnAnyKeeper D)) (run : Run) (shown : Shown) (old new : Moment) →
        AllBegin D.told 0 folders disks before → HaveNoFiles D.told 0 folders disks → StayInPlace slots_of place_of before after →
        old.images ≡ by_number None (told_of D.told) before → new.images ≡ by_number None (told_of D.told) after → Done (performing run) shown old new →
        (valid : Valid run.steps run.slots run.list) → length run.slots ≤ length folders →
        (level : ℕ) (folder : List ℕ) → level < length run.slots → slice_get folders level ≡ Some (Some folder) →
        LevelHoldsJust D.told (unit_state run) (held_on valid.0 level) folder level after }
{}

/// Over inputs and keepers that claim their content, an accepted request is done if no fault counter rises. Otherwise
/// memory runs out. So no refusal and no failure is ever invented.
pub fn accepted_requests_are_done<D: Disk, W: Output>()
    ensures { (words : List (List ℕ)) (files : Files) (asked asked2 : List (List ℕ)) (input_faults input_faults2 : ℕ)
        (before after : List (AnAnyKeeper D)) (out out2 : AStdoutSink W) (steps steps2 : ℕ) (ended : AnEnded) →
        IsRun D.told W.contents words (Some files) asked asked2 input_faults input_faults2 before after out out2 steps steps2 ended →
        (r : ARequest) → Asks words r → (job : AJob) → Decides r (contents files (inputs_of r.command)) (map slots_of before) (accept job) →
        AllTell (course_of job).levels (by_number None (told_of D.told) before) → (Rose input_faults input_faults2 → ⊥) →
        NothingRises (seen D.told W.contents out before steps) (seen D.told W.contents out2 after steps2) → (ended ≡ ended_of done) ⊎ (ended ≡ ended_of no_memory) }
{
    decisions_are_unique();
    accepted_jobs_are_done();
}
