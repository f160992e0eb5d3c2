// The certificates of lists that are planned.
ghost use Rattle.std.specs.Prelude.{◌≡◌, ◌≤◌, ◌+◌, ℕ, List};
ghost use Rattle.plan_types.specs.declared.action.Action.{Action};
ghost use Rattle.plan_types.specs.declared.limits.TheConstants.{MOST_STEPS};
ghost use Rattle.level_book.specs.Prelude.{BookCosts, IsWithinLimits, slots_of, total_room, Valid, forward, IsGreatest, IsGreatestDisk};
ghost use Rattle.binomials.specs.Prelude.{repeats, least_advances};
ghost use Rattle.revolve_gen.specs.Prelude.{HasPlan, revolve_list};
ghost use Rattle.multistage_gen.specs.Prelude.{IsPlaced, IsMultistageList};
ghost use Rattle.cost_tables.specs.Prelude.{AreFor, TablesFit, FastestTablesFit, tables_in};
ghost use Rattle.hrevolve_gen.specs.Prelude.{IsWritten};
ghost use Rattle.disk_gen.specs.Prelude.{AreDiskFor, disk_tables_in, IsDiskWritten};
ghost use Rattle.cert_text.specs.Prelude.{HasText};
ghost use Rattle.hrevolve_gen.specs.Plans as nested;
ghost use Rattle.bound_cert.specs.Acceptance.{IsAccepted, IsPlaces};
ghost use Rattle.bound_cert.specs.Thresholds.{IsThresholdOf};

use crate::places::greatest_slow;
use binomials::{least_advances, repeats};
use cert_text::Certificate;
use cost_tables::Tables;
use disk_gen::DiskTables;
use level_book::Book;
use multistage_gen::Multistage;

/// The certificate of the list that `revolve_gen::revolve_list` gives for these steps and this book. It takes no
/// memory.
pub fn certify_revolve(steps: u32, book: &Book) -> Certificate
    requires short { steps ≤ MOST_STEPS }
    requires plan { HasPlan steps (total_room book.now steps) }
    ensures few { steps ≤ 1 → result ≡ Certificate.Revolve 0 steps }
    ensures more { 2 ≤ steps → result ≡ Certificate.Revolve (repeats steps (total_room book.now steps))
        (steps + least_advances steps (total_room book.now steps)) }

    // It has a text: its numbers are within the limits of texts.
    ensures text { HasText steps book.now result }

    // It is accepted for that list, so no valid list takes fewer forward steps.
    ensures accepted { IsAccepted (revolve_list steps book.now) steps book.now result }
    ensures least { (other : List Action) → Valid steps (slots_of book.now) other → forward (revolve_list steps book.now) ≤ forward other }
{
    if steps <= 1 {
        return Certificate::Revolve {
            k: 0,
            value: u64::from(steps),
        };
    }
    let slots = book.total_room(steps);
    Certificate::Revolve {
        k: repeats(steps, slots),
        value: u64::from(steps) + least_advances(steps, slots),
    }
}

/// The certificate of a multistage plan. Its threshold is the most that a place on the slower level would save on the
/// faster one. The plan has counted these savings, so this takes no memory.
pub fn certify_places(plan: &Multistage) -> Certificate
    ensures threshold { (steps : ℕ) (book : BookCosts) → IsPlaced steps book plan.now →
        IsPlaces (λ threshold. IsThresholdOf threshold steps book plan.now.actions) result }
    ensures text { (steps : ℕ) (book : BookCosts) → HasText steps book result }

    // It is accepted for the list that is planned.
    ensures accepted { (steps : ℕ) (book : BookCosts) → IsPlaced steps book plan.now → IsMultistageList steps book plan.now.actions →
        IsAccepted plan.now.actions steps book result }
{
    Certificate::Places {
        threshold: greatest_slow(plan.levels(), plan.savings()),
    }
}

/// The certificate of a list of the nested class: the tables that it was read from. It takes no memory.
pub fn certify_nested(tables: Tables) -> Certificate
    ensures value { result ≡ Certificate.Nested tables }

    // The certificate of the greatest tables has a text, and is accepted for the list read from them.
    ensures text { (steps : ℕ) (book : BookCosts) → IsWithinLimits book → TablesFit steps book → AreFor steps book tables →
        IsGreatest steps book (tables_in tables) →
        HasText steps book result }
    ensures accepted { (list : List Action) (steps : ℕ) (book : BookCosts) → IsWithinLimits book → TablesFit steps book → AreFor steps book tables →
        IsGreatest steps book (tables_in tables) → nested.HasNestedPlan steps book → IsWritten steps book (tables_in tables) list →
        IsAccepted list steps book result }
{
    tables.is_shaped();
    let _levels = tables.levels();
    Certificate::Nested { tables }
}

/// The certificate of disk tables, for the disk class.
pub fn certify_disk(tables: DiskTables) -> Certificate
    ensures value { result ≡ Certificate.Disk tables }
    ensures text { (steps : ℕ) (book : BookCosts) → IsWithinLimits book → FastestTablesFit steps book → AreDiskFor steps book tables →
        IsGreatestDisk steps book (disk_tables_in tables) → HasText steps book result }
    ensures accepted { (list : List Action) (steps : ℕ) (book : BookCosts) → IsWithinLimits book → FastestTablesFit steps book → AreDiskFor steps book tables →
        IsGreatestDisk steps book (disk_tables_in tables) → IsDiskWritten steps book (disk_tables_in tables) list → IsAccepted list steps book result }
{
    tables.is_shaped();
    Certificate::Disk { tables }
}
