//! The check of written files.

ghost use Rattle.std.specs.Prelude.{◌≡◌, ◌≢◌, ◌⊎◌, ◌↔◌, None, Some, IfOk, IfSome, Contains, map, string_bytes};
ghost use Rattle.sut_outside.specs.Files.{SameFiles, Told};
ghost use Rattle.sut_outside.specs.Causes.{NoneFailed, Rose};
ghost use Rattle.sut_check.specs.CheckWords.{IsCheckedSource, checked_names, checked_source};
ghost use Rattle.sut_check.specs.Statuses.{status_for};
ghost use Rattle.sut_check.specs.Claims.{claim_in};
ghost use Rattle.sut_check.specs.Findings.{IsClaimFor, check_text, verdict_of};
ghost use Rattle.sut_check.specs.Judged.{EndsAs, lines_in};
ghost use Rattle.sut_check.specs.CheckEnds.{AnswersCheck, AnswersClaim, AreLines, IfReadFault, IsReadFault, Prints};

use crate::CheckStatus;
use crate::claims::read_claim;
use crate::faults::status_of;
use crate::judging::{Judged, judge};
use crate::words::source_named;
use std::alloc::Global;
use sut_cert::Answer;
use sut_outside::{FileName, Shelf, Sink};
use sut_tables::Problem;

// Prints the lines of an accepted claim in one put, and answers its status.
fn print_lines<K: Sink>(out: &mut K, lines: &[u8], ends: CheckStatus) -> CheckStatus
    requires { (ends ≡ CheckStatus.Least) ⊎ (ends ≡ CheckStatus.NoTable) }
    ensures answer { (result ≡ ends) ⊎ (result ≡ CheckStatus.SinkFault) }
    ensures printed { Told (K.sent out.old) (K.sent out.new) (Prints (λ text. text ≡ lines.now) result) }
    ensures sink_fault { result ≡ CheckStatus.SinkFault → Rose (K.faults out.old) (K.faults out.new) }
    ensures sink_stays { result ≢ CheckStatus.SinkFault → K.faults out.new ≡ K.faults out.old }
{
    match out.put(lines) {
        Ok(()) => ends,
        Err(_) => CheckStatus::SinkFault,
    }
}

// Prints the lines of a judged claim, where it is accepted.
fn print_judged<K: Sink>(out: &mut K, judged: &Judged) -> CheckStatus
    ensures ends { EndsAs judged.now result }
    ensures printed { Told (K.sent out.old) (K.sent out.new) (Prints (λ text. text ≡ lines_in judged.now) result) }
    ensures sink_fault { result ≡ CheckStatus.SinkFault → Rose (K.faults out.old) (K.faults out.new) }
    ensures sink_stays { result ≢ CheckStatus.SinkFault → K.faults out.new ≡ K.faults out.old }
{
    match judged {
        Judged::Least(lines) => print_lines(out, lines, CheckStatus::Least),
        Judged::NoTable(lines) => print_lines(out, lines, CheckStatus::NoTable),
        Judged::Refused(reason) => CheckStatus::Refused(*reason),
    }
}

// Judges a claim, and prints the lines of one that is accepted.
fn check_claim<K: Sink>(alloc: Global, p: &Problem, a: &Answer, out: &mut K) -> CheckStatus
    requires { IsClaimFor p.now a.now }
    ensures answers { AnswersClaim p.now a.now result }
    ensures printed { Told (K.sent out.old) (K.sent out.new) (Prints (λ lines. lines ≡ check_text p.now a.now) result) }
    ensures sink_fault { result ≡ CheckStatus.SinkFault → Rose (K.faults out.old) (K.faults out.new) }
    ensures sink_stays { result ≢ CheckStatus.SinkFault → K.faults out.new ≡ K.faults out.old }
{
    match judge(alloc, p, a) {
        Ok(judged) => print_judged(out, &judged),
        Err(_) => CheckStatus::NoMemory,
    }
}

// Checks against the source that stands under this name.
fn check_source<F: Shelf, K: Sink>(
    alloc: Global,
    shelf: &mut F,
    out: &mut K,
    source: FileName,
) -> CheckStatus
    requires { IsCheckedSource source }
    ensures files { Told (F.files shelf.old) (F.files shelf.new) SameFiles }
    ensures answers { IfSome (F.files shelf.old) (λ files. AnswersCheck source files result) }
    ensures printed { Told (K.sent out.old) (K.sent out.new) (Prints (λ lines. IfSome (F.files shelf.old) (λ files. AreLines source files lines)) result) }
    ensures read_fault { IfReadFault result (λ failed. Rose (F.faults shelf.old) (F.faults shelf.new) × (F.last_failed shelf.new ≡ Some failed) × Contains (checked_names source) failed) }
    ensures sink_fault { result ≡ CheckStatus.SinkFault → Rose (K.faults out.old) (K.faults out.new) }
    ensures shelf_stays { ¬ IsReadFault result → NoneFailed (F.faults shelf.old) (F.faults shelf.new) (F.last_failed shelf.old) (F.last_failed shelf.new) }
    ensures sink_stays { result ≢ CheckStatus.SinkFault → K.faults out.new ≡ K.faults out.old }
    ensures used { (result ≡ CheckStatus.Usage) → ⊥ }
{
    match read_claim(alloc, shelf, source) {
        Ok(claim) => check_claim(alloc, &claim.input.problem, &claim.answer, out),
        Err(fault) => status_of(fault),
    }
}

/// Checks what was written. Without a word the certificate in `certificate.csv` is checked against `source.csv`, and with the
/// one word `edited` against `edited.csv`; no other words are accepted.
///
/// It reads `settings.toml`, `classes.csv`, the source, `certificate.csv`, and `balanced.csv` where the certificate holds
/// potentials, each once, each parsed before the next is read. It answers `Least` exactly where the potentials show the table,
/// so that no admissible table of whole numbers costs less, and prints `least` and the cost (the weighted sum of penalties,
/// Stone, Champernowne and Meade 1942). It answers `NoTable` exactly where the set of accounts contradicts the bounds, so that
/// no table is admissible, and prints `no table` and both sums (Hoffman). Else it answers the first reason. No file changes;
/// the first failure ends the check, and is its answer: where that is no failed read, no read failed, and where it is not
/// `SinkFault`, no put.
pub fn check_run<F: Shelf, K: Sink>(
    alloc: Global,
    words: &[String],
    shelf: &mut F,
    out: &mut K,
) -> CheckStatus
    // The words are refused exactly where they name no source.
    ensures usage { (result ≡ CheckStatus.Usage) ↔ (checked_source (map string_bytes words.now) ≡ None) }

    // It writes no file.
    ensures files { Told (F.files shelf.old) (F.files shelf.new) SameFiles }

    // What each answer says of the files at entry, and what was printed.
    ensures answers { IfSome (checked_source (map string_bytes words.now)) (λ source. IfSome (F.files shelf.old) (λ files. AnswersCheck source files result)) }
    ensures printed { Told (K.sent out.old) (K.sent out.new) (Prints (λ lines. IfSome (checked_source (map string_bytes words.now)) (λ source. IfSome (F.files shelf.old) (λ files. AreLines source files lines))) result) }

    // A fault of a device is answered only where its count rose, with the name of the last failed call.
    ensures read_fault { IfReadFault result (λ failed. Rose (F.faults shelf.old) (F.faults shelf.new) × (F.last_failed shelf.new ≡ Some failed)
        × IfSome (checked_source (map string_bytes words.now)) (λ source. Contains (checked_names source) failed)) }
    ensures sink_fault { result ≡ CheckStatus.SinkFault → Rose (K.faults out.old) (K.faults out.new) }

    // Where another answer is given, no call of the device failed.
    ensures shelf_stays { ¬ IsReadFault result → NoneFailed (F.faults shelf.old) (F.faults shelf.new) (F.last_failed shelf.old) (F.last_failed shelf.new) }
    ensures sink_stays { result ≢ CheckStatus.SinkFault → K.faults out.new ≡ K.faults out.old }

    // Where the files spell a claim and no count rose, the answer is that of the verifier, or memory ran out.
    ensures complete { IfSome (checked_source (map string_bytes words.now)) (λ source. IfSome (F.files shelf.old) (λ files.
        ¬ Rose (F.faults shelf.old) (F.faults shelf.new) → ¬ Rose (K.faults out.old) (K.faults out.new)
        → IfOk (claim_in source None files) (λ claim. (result ≡ CheckStatus.NoMemory) ⊎ (result ≡ status_for (verdict_of claim.0 claim.1))))) }
{
    match source_named(words) {
        Some(source) => check_source(alloc, shelf, out, source),
        None => CheckStatus::Usage,
    }
}
