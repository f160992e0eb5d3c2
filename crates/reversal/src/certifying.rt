// Whether a list is the least by its certificate: of all valid lists, or of its class.
ghost use Rattle.std.specs.Prelude.{◌≡◌, ℕ, ◌≤◌, List, length, IfOk, IfErr};
ghost use Rattle.plan_types.specs.declared.limits.TheConstants.{MOST_STEPS};
ghost use Rattle.level_book.specs.Prelude.{Valid};
ghost use Rattle.cert_text.specs.Prelude.{IsCertificateText, HasFirstFault};
ghost use Rattle.endings.specs.Prelude.{bad_certificate};
ghost use Rattle.reversal.specs.Prelude.{least_line, DecidesCertify, IsRefusal, IsDecided};

use crate::decision::valid_in;
use crate::job::Job;
use bound_cert::{CertVerdict, Class, check_certificate};
use cert_text::{Certificate, read_certificate};
use endings::Outcome;
use level_book::Book;
use plan_types::Line;
use std::alloc::Global;

/// The decision on a request to certify a list.
pub fn decide_certify(
    alloc: Global,
    steps: u32,
    book: &[u8],
    schedule: &[u8],
    certificate: &[u8],
) -> Result<Job, Outcome>
    requires steps { steps ≤ MOST_STEPS }
    requires short { length schedule.now ≤ 536870912 }
    requires small { length certificate.now ≤ 536870912 }
    ensures { (counts : List ℕ) → IsDecided (DecidesCertify steps book.now schedule.now certificate.now) counts result }
{
    let (book, list) = valid_in(alloc, steps, book, schedule)?;
    let certificate = certificate_in(alloc, certificate, steps, &book)?;
    let verdict = check_certificate(alloc, &list, steps, &book, &certificate)?;
    match verdict {
        CertVerdict::Least(class) => Ok(Job::Write(least_line(class))),
        CertVerdict::Not(reason) => Err(Outcome::NotLeast(reason)),
    }
}

// The text for a list that is the least of its class.
fn least_line(class: Class) -> Line
    ensures { result ≡ least_line class }
{
    let mut line = Line::new();
    line.push(match class {
        Class::Valid => b"least valid\n",
        Class::Multistage => b"least multistage\n",
        Class::Nested => b"least nested\n",
        Class::Disk => b"least disk\n",
    });
    line
}

// The certificate that bytes mean.
fn certificate_in(
    alloc: Global,
    bytes: &[u8],
    steps: u32,
    book: &Book,
) -> Result<Certificate, Outcome>
    requires steps { steps ≤ MOST_STEPS }
    requires small { length bytes.now ≤ 536870912 }
    ensures found { IfOk result (IsCertificateText steps book.now bytes.now) }
    ensures refused { IfErr result (IsRefusal (HasFirstFault steps book.now bytes.now) bad_certificate) }
{
    match read_certificate(alloc, bytes, steps, book) {
        Ok(certificate) => Ok(certificate),
        Err(fault) => Err(Outcome::bad_certificate(fault)),
    }
}
