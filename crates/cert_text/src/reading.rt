// Texts that are read as certificates.
ghost use Rattle.std.specs.Prelude.{◌≡◌, ◌⊎◌, ◌<◌, ◌≤◌, ◌^◌, ℕ, [], ◌∷◌, length, decimal, MatchResult, IfOk, IfErr, Ok, Err};
ghost use Rattle.plan_types.specs.declared.limits.TheConstants.{MOST_STEPS};
ghost use Rattle.line_texts.specs.declared.fault.Fault.{Fault};
ghost use Rattle.level_book.specs.Prelude.{BookCosts};
ghost use Rattle.cert_text.specs.declared.reading.TheConstants.{MOST_REPEATS};
ghost use Rattle.cert_text.specs.declared.certificate.Certificate.{Certificate};
ghost use Rattle.cert_text.specs.Grammar.{Fits, first_wants};
ghost use Rattle.cert_text.specs.Meaning.{IsCertificateText};
ghost use Rattle.cert_text.specs.Words.{words_of, end_of};
ghost use Rattle.cert_text.specs.Faults.{IsWordFault, HasFirstFault, first_column};
ghost use Rattle.cert_text.specs.ReaderState.{IsAt, IsRestFault, SaysRest, number_of_rule, texts};

use crate::certificate::Certificate;
use crate::disk::read_disk;
use crate::fault::Rule;
use crate::kind::Kind;
use crate::lines::MarkedLine;
use crate::nested::read_nested;
use crate::reader::Reader;
use crate::setting::Setting;
use crate::words::Words;
use level_book::Book;
use line_texts::{Fault, LineFault};
use std::alloc::Global;

/// The greatest number of repeats that a text may name.
const MOST_REPEATS: u64 = 1_000_000;

/// Reads the certificate of a text for so many steps and a book, in one pass. It ignores lines that don't begin with
/// `#!`. It takes memory only for tables, if they fit. The rules of a fault are 1 Missing, 2 Kind, 3 Number, 4 Shape and
/// 5 TooLarge. Rule 1 has line 0 and column 0.
pub fn read_certificate(
    alloc: Global,
    bytes: &[u8],
    steps: u32,
    book: &Book,
) -> Result<Certificate, Fault>
    requires small { length bytes.now < 2 ^ 31 }
    requires few { steps ≤ MOST_STEPS }
    // The text means the certificate that is read. A text that means one is read.
    ensures found { IfOk result (IsCertificateText steps book.now bytes.now) }
    ensures only { (certificate : Certificate) → IsCertificateText steps book.now bytes.now certificate →
        (result ≡ Ok certificate) ⊎ (result ≡ Err Fault.Memory) }

    // A refused text has that fault first, or there was no memory. A text with a fault is refused for it.
    ensures refused { IfErr result (λ fault. (fault ≡ Fault.Memory) ⊎ HasFirstFault steps book.now bytes.now fault) }
    ensures first { (fault : Fault) → HasFirstFault steps book.now bytes.now fault → (result ≡ Err fault) ⊎ (result ≡ Err Fault.Memory) }
{
    read(alloc, bytes, steps, book)
}

// Reads a certificate, with one clause for each outcome.
fn read(alloc: Global, bytes: &[u8], steps: u32, book: &Book) -> Result<Certificate, Fault>
    requires { length bytes.now < 2 ^ 31 }
    ensures { MatchResult result (λ certificate. IsCertificateText steps book.now bytes.now certificate) (λ fault. (fault ≡ Fault.Memory)
        ⊎ HasFirstFault steps book.now bytes.now fault) }
{
    let mut reader = Reader::new(bytes);
    match reader.line() {
        Err(_) => Err(Fault::At {
            rule: 1,
            line: 0,
            column: 0,
        }),
        Ok(first) => {
            let mut words = Words::new(first.text, 3);
            match words.kind() {
                Ok(kind) => {
                    if !kind.fits(steps, book) {
                        return Err(too_large(&first));
                    }
                    let setting = Setting { alloc, steps, book };
                    read_rest(kind, first.number, &mut words, &mut reader, &setting)
                }
                Err(column) => Err(Fault::At {
                    rule: 2,
                    line: first.number,
                    column,
                }),
            }
        }
    }
}

// Reads what comes after the word of a kind, which is in the line with this number.
fn read_rest(
    kind: Kind,
    number: u32,
    words: &mut Words<'_>,
    reader: &mut Reader<'_>,
    setting: &Setting<'_>,
) -> Result<Certificate, Fault>
    requires { Fits kind setting.now.steps setting.now.book.now }
    ensures { MatchResult result
        (λ certificate. SaysRest kind setting.now.steps setting.now.book.now words.old reader.old certificate)
        (λ fault. (fault ≡ Fault.Memory)
        ⊎ IsAt (IsRestFault kind setting.now.steps setting.now.book.now number words.old reader.old) fault) }
{
    match kind {
        Kind::Revolve => revolve(number, words, reader),
        Kind::Places => places(number, words, reader),
        Kind::Nested => match words.finish() {
            Ok(()) => Ok(Certificate::Nested {
                tables: read_nested(reader, setting)?,
            }),
            Err(fault) => Err(fault.at(number)),
        },
        Kind::Disk => match words.finish() {
            Ok(()) => Ok(Certificate::Disk {
                tables: read_disk(reader, setting)?,
            }),
            Err(fault) => Err(fault.at(number)),
        },
    }
}

// Reads what comes after the word of a Revolve certificate. That word is in the line with this number.
fn revolve(
    number: u32,
    words: &mut Words<'_>,
    reader: &mut Reader<'_>,
) -> Result<Certificate, Fault>
    ensures { (steps : ℕ) (book : BookCosts) → MatchResult result
        (λ certificate. SaysRest Kind.Revolve steps book words.old reader.old certificate)
        (λ fault. (fault ≡ Fault.Memory) ⊎ IsAt (IsRestFault Kind.Revolve steps book number words.old reader.old) fault) }
{
    match repeats(words) {
        Ok((k, value)) => {
            reader.finish()?;
            Ok(Certificate::Revolve { k: k as u32, value })
        }
        Err(fault) => Err(fault.at(number)),
    }
}

// The repeats and the value, with no word after them.
fn repeats(words: &mut Words<'_>) -> Result<(u64, u64), LineFault<Rule>>
    ensures { MatchResult result
        (λ p. (p.0 ≤ MOST_REPEATS) × (p.1 < 2 ^ 64) × (texts words.old.words ≡ decimal p.0 ∷ decimal p.1 ∷ []))
        (λ fault. IsWordFault (first_wants Kind.Revolve) words.old.words words.old.end (number_of_rule fault.rule) fault.column) }
{
    let k = words.number(MOST_REPEATS)?;
    let value = words.number(u64::MAX)?;
    words.finish()?;
    Ok((k, value))
}

// Reads what comes after the word of a certificate of places. That word is in the line with this number.
fn places(number: u32, words: &mut Words<'_>, reader: &mut Reader<'_>) -> Result<Certificate, Fault>
    ensures { (steps : ℕ) (book : BookCosts) → MatchResult result
        (λ certificate. SaysRest Kind.Places steps book words.old reader.old certificate)
        (λ fault. (fault ≡ Fault.Memory) ⊎ IsAt (IsRestFault Kind.Places steps book number words.old reader.old) fault) }
{
    match threshold(words) {
        Ok(threshold) => {
            reader.finish()?;
            Ok(Certificate::Places { threshold })
        }
        Err(fault) => Err(fault.at(number)),
    }
}

// The threshold, with no word after it.
fn threshold(words: &mut Words<'_>) -> Result<u64, LineFault<Rule>>
    ensures { MatchResult result
        (λ n. (n < 2 ^ 64) × (texts words.old.words ≡ decimal n ∷ []))
        (λ fault. IsWordFault (first_wants Kind.Places) words.old.words words.old.end (number_of_rule fault.rule) fault.column) }
{
    let threshold = words.number(u64::MAX)?;
    words.finish()?;
    Ok(threshold)
}

// The fault of tables that are too large, at the word that names them.
fn too_large(first: &MarkedLine<'_>) -> Fault
    requires { length first.now.text.now < 2 ^ 31 }
    ensures { result ≡ Fault.At 5 first.now.number
        (first_column (words_of record { number = first.now.number; text = first.now.text.now }) (end_of record {
          number = first.now.number;
          text = first.now.text.now;
        })) }
{
    Fault::At {
        rule: 5,
        line: first.number,
        column: Words::new(first.text, 3).first_column(),
    }
}
