// Laws of the texts of certificates. Each function does nothing; its contract is the law.
ghost use Rattle.cert_text.specs.Laws.{OneCertificate, OneFault, CertificatesHaveNoFault, CertificateOrFault, PiecesJoin, CanonicalIsRead, SizedHasText, DiskSizedHasText};

use cost_tables::Tables;
use disk_gen::DiskTables;

/// Bytes mean one certificate at most.
pub fn texts_say_one_certificate()
    ensures { OneCertificate }
{}

/// Bytes have at most one first fault, and those of a certificate have none.
pub fn faults_are_unique()
    ensures one { OneFault }
    ensures none { CertificatesHaveNoFault }
{}

/// All bytes mean a certificate or have a first fault.
pub fn bytes_say_a_certificate_or_have_a_fault()
    ensures { CertificateOrFault }
{}

/// The writes of a certificate, one after the other, are its canonical text.
pub fn pieces_join()
    ensures { PiecesJoin }
{}

/// The canonical text of a certificate reads as it, also after lines of other kinds.
pub fn canonical_texts_are_read()
    ensures { CanonicalIsRead }
{}

/// Tables for so many steps and a book have a text, whichever entries were set. It changes nothing.
pub fn sized_tables_have_a_text(tables: &Tables)
    ensures { SizedHasText tables.now }
{
    tables.is_shaped();
    tables.is_short();
}

/// Disk tables of the right size have a text, whichever entries were set.
pub fn sized_disk_tables_have_a_text(tables: &DiskTables)
    ensures { DiskSizedHasText tables.now }
{
    tables.is_shaped();
    tables.is_short();
}
