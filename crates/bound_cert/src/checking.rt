// Whether a certificate is accepted for a list.
ghost use Rattle.std.specs.Prelude.{◌≡◌, ◌≤◌, ◌↔◌, ℕ, List, length, IfOk};
ghost use Rattle.plan_types.specs.declared.action.Action.{Action};
ghost use Rattle.plan_types.specs.declared.limits.TheConstants.{MOST_ACTIONS, MOST_STEPS};
ghost use Rattle.level_book.specs.Prelude.{slots_of, Valid, forward, cost, Nested, Disk};
ghost use Rattle.revolve_gen.specs.Prelude.{IsMultistage};
ghost use Rattle.cert_text.specs.declared.certificate.Certificate.{Certificate};
ghost use Rattle.bound_cert.specs.declared.verdict.Class.{Class};
ghost use Rattle.bound_cert.specs.declared.verdict.Reason.{Reason};
ghost use Rattle.bound_cert.specs.Acceptance.{class_of, IsAccepted, IsFirstReason};
ghost use Rattle.bound_cert.specs.ValidLists.{IsValid};
ghost use Rattle.bound_cert.specs.Verdicts.{IsVerdict, FindsNumber, IsComparison};

use crate::bound::bound;
use crate::listed::Listed;
use crate::places::weigh_places;
use crate::tables::{weigh_disk, weigh_nested};
use crate::verdict::{CertVerdict, Class, Reason};
use cert_text::Certificate;
use level_book::Book;
use plan_types::Action;
use schedule_rules::{Verdict, check};
use std::alloc::{AllocError, Global};

/// Checks a certificate for a list, a number of steps and a book. It takes the validator's memory. A threshold also
/// needs that of the list's places. Tables need their columns, and 8 bytes for each step and number of free slots.
pub fn check_certificate(
    alloc: Global,
    list: &[Action],
    steps: u32,
    book: &Book,
    certificate: &Certificate,
) -> Result<CertVerdict, AllocError>
    requires short { steps ≤ MOST_STEPS }
    requires few { length list.now ≤ MOST_ACTIONS }
    ensures accepted { IfOk result (λ v. (class : Class) →
        (v ≡ CertVerdict.Least class) ↔ ((class ≡ class_of certificate.now) × IsAccepted list.now steps book.now certificate.now)) }
    ensures refused { IfOk result (λ v. (reason : Reason) → (v ≡ CertVerdict.Not reason) ↔ (IsFirstReason list.now steps book.now certificate.now reason)) }

    // An accepted certificate shows that the list is least. No valid list takes fewer forward steps, or no list of the
    // class costs less.
    ensures least { IfOk result (λ v. v ≡ CertVerdict.Least Class.Valid →
        (other : List Action) → Valid steps (slots_of book.now) other → forward list.now ≤ forward other) }
    ensures least_multistage { IfOk result (λ v. v ≡ CertVerdict.Least Class.Multistage →
        (other : List Action) → IsMultistage steps book.now other → cost list.now book.now ≤ cost other book.now) }
    ensures least_nested { IfOk result (λ v. v ≡ CertVerdict.Least Class.Nested →
        (other : List Action) → Nested steps (slots_of book.now) other → cost list.now book.now ≤ cost other book.now) }
    ensures least_disk { IfOk result (λ v. v ≡ CertVerdict.Least Class.Disk →
        (other : List Action) → Disk steps (slots_of book.now) other → cost list.now book.now ≤ cost other book.now) }
{
    let _levels = book.levels();
    book.costs_rise();
    match check(alloc, list, steps, book)? {
        Verdict::Valid => weigh(alloc, &Listed { list, steps, book }, certificate),
        Verdict::Broken { .. } => Ok(CertVerdict::Not(Reason::Invalid)),
    }
}

// The verdict on a valid list.
fn weigh(
    alloc: Global,
    listed: &Listed,
    certificate: &Certificate,
) -> Result<CertVerdict, AllocError>
    requires { IsValid listed.now }
    ensures { IfOk result (IsVerdict listed.now.list.now listed.now.steps listed.now.book.now certificate.now) }
{
    match certificate {
        Certificate::Revolve { k, value } => {
            let number = bound(listed.steps, listed.book.total_room(listed.steps), *k);
            Ok(compare(listed.forward_steps(), *value, number))
        }
        Certificate::Places { threshold } => weigh_places(alloc, listed, *threshold),
        Certificate::Nested { tables } => weigh_nested(alloc, listed, tables),
        Certificate::Disk { tables } => weigh_disk(alloc, listed, tables),
    }
}

// The verdict on a list with so many forward steps, by its certificate's value and k's bound. The bound is None where
// it is negative.
fn compare(cost: u64, value: u64, number: Option<u64>) -> CertVerdict
    ensures { (steps slots k : ℕ) → FindsNumber steps slots k number → IsComparison steps slots k cost value result }
{
    if cost != value {
        return CertVerdict::Not(Reason::ValueDiffers { cost, value });
    }
    let Some(number) = number else {
        return CertVerdict::Not(Reason::ValueDiffers { cost, value: 0 });
    };
    if value != number {
        return CertVerdict::Not(Reason::ValueDiffers {
            cost,
            value: number,
        });
    }
    CertVerdict::Least(Class::Valid)
}
