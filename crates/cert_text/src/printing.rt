// The canonical text of a certificate.
ghost use Rattle.std.specs.Prelude.{◌≡◌, ◌++◌, length, OnOk, OnErr};
ghost use Rattle.keepers.specs.Prelude.{Rose, raised, Tells, AddsPrefix, seen, AddsLines, StopsIn};
ghost use Rattle.cert_text.specs.Canonical.{pieces, canonical};

use crate::certificate::Certificate;
use crate::piece::Piece;
use crate::printing_disk::print_disk;
use crate::printing_rows::print_nested;
use keepers::{Sink, SinkFault};

/// Writes the canonical text of a certificate, each line in writes of at most sixteen words. It takes no memory.
pub fn print_certificate<O: Sink>(certificate: &Certificate, out: &mut O) -> Result<(), SinkFault>
    ensures ok { OnOk result (Tells (O.told out.old) (O.told out.new) (λ old new. new ≡ old ++ canonical certificate.now)) }
    ensures refused { OnErr result (Tells (O.told out.old) (O.told out.new) (AddsPrefix (canonical certificate.now))) }
    ensures calls { OnOk result (O.call_count out.new ≡ raised (O.call_count out.old) (length (pieces certificate.now))) }

    // If a write fails, the writes before it were added.
    ensures stopped { OnErr result (StopsIn (pieces certificate.now) (seen O.Sink out.old)
        (seen O.Sink out.new)) }

    // A fault is returned only if the output counts one.
    ensures quiet { OnOk result (O.fault_count out.new ≡ O.fault_count out.old) }
    ensures cause { OnErr result (Rose (O.fault_count out.old) (O.fault_count out.new)) }
{
    print(certificate, out)
}

// Prints a certificate, with one clause for each outcome.
fn print<O: Sink>(certificate: &Certificate, out: &mut O) -> Result<(), SinkFault>
    ensures ok { OnOk result (AddsLines (pieces certificate.now) (seen O.Sink out.old)
        (seen O.Sink out.new)) }
    ensures stopped { OnErr result (StopsIn (pieces certificate.now) (seen O.Sink out.old)
        (seen O.Sink out.new)) }
{
    match certificate {
        Certificate::Revolve { k, value } => print_revolve(*k, *value, out),
        Certificate::Places { threshold } => print_places(*threshold, out),
        Certificate::Nested { tables } => print_nested(tables, out),
        Certificate::Disk { tables } => print_disk(tables, out),
    }
}

fn print_revolve<O: Sink>(k: u32, value: u64, out: &mut O) -> Result<(), SinkFault>
    ensures ok { OnOk result (AddsLines (pieces (Certificate.Revolve k value)) (seen O.Sink out.old)
        (seen O.Sink out.new)) }
    ensures stopped { OnErr result (StopsIn (pieces (Certificate.Revolve k value)) (seen O.Sink out.old)
        (seen O.Sink out.new)) }
{
    let mut piece = Piece::new();
    piece.word(b"revolve", out)?;
    piece.number(k as u64, out)?;
    piece.number(value, out)?;
    piece.end(out)
}

fn print_places<O: Sink>(threshold: u64, out: &mut O) -> Result<(), SinkFault>
    ensures ok { OnOk result (AddsLines (pieces (Certificate.Places threshold)) (seen O.Sink out.old)
        (seen O.Sink out.new)) }
    ensures stopped { OnErr result (StopsIn (pieces (Certificate.Places threshold)) (seen O.Sink out.old)
        (seen O.Sink out.new)) }
{
    let mut piece = Piece::new();
    piece.word(b"places", out)?;
    piece.number(threshold, out)?;
    piece.end(out)
}
