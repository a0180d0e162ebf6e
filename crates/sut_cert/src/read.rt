//! Reading `certificate.csv`.

ghost use Rattle.std.specs.Prelude.{◌≡◌, ◌≢◌, ◌<◌, ◌+◌, ◌==◌, ◌∷◌, ◌^◌, [], Ok, IfErr, IfOk, length, slice_get};
ghost use Rattle.std.specs.Bool.{MatchBool};
ghost use Rattle.csv.specs.Records.{fields_of};
ghost use Rattle.sut_records.specs.RecordList.{field as field_of, records_of, same_fields};
ghost use Rattle.sut_records.specs.FirstFault.{and_then, read_lines};
ghost use Rattle.sut_text.specs.Number.{whole_of};
ghost use Rattle.sut_tables.specs.Problems as problem;
ghost use Rattle.sut_cert.specs.Certificates.{IsAccountSet};
ghost use Rattle.sut_cert.specs.CertificateFile as certificate;
ghost use Rattle.sut_cert.specs.CertificateText.{NamesLiveAccounts, certificate_records};

use crate::certificates::{comes_before, is_among, is_in_range, is_same};
use crate::{AccountSet, CertCause, CertFault, Certificate, Potentials};
use csv::ByteRecord;
use std::alloc::Global;
use sut_classes::Classes;
use sut_measures::{Account, read_account};
use sut_records::{Records, field, has_fields};
use sut_tables::{Problem, live_accounts};
use sut_text::{NumberFault, read_whole};

// ---- the fields of a line

fn has_width(row: &ByteRecord, width: usize) -> bool
    ensures { result ≡ (length (fields_of row.now) == width) }
{
    row.len() == width
}

fn account_of(classes: &Classes, row: &ByteRecord) -> Result<Account, CertCause>
    ensures { result ≡ certificate.account_read classes.now (fields_of row.now) }
{
    match read_account(classes, field(row, 0), field(row, 1), field(row, 2)) {
        Ok(account) => Ok(account),
        Err(fault) => Err(CertCause::BadName(fault)),
    }
}

fn number_cause(fault: NumberFault) -> CertCause
    ensures { result ≡ certificate.number_cause fault }
{
    match fault {
        NumberFault::TooWide => CertCause::OutOfRange,
        NumberFault::Empty | NumberFault::BadByte(_) | NumberFault::NotShortest => {
            CertCause::NotNumber
        }
    }
}

fn potential_of(text: &[u8]) -> Result<i128, CertCause>
    ensures { result ≡ certificate.potential_of (whole_of text.now) }
{
    match read_whole(text) {
        Ok(number) => {
            if is_in_range(number) {
                Ok(number)
            } else {
                Err(CertCause::OutOfRange)
            }
        }
        Err(fault) => Err(number_cause(fault)),
    }
}

fn line_potential(row: &ByteRecord) -> Result<i128, CertCause>
    ensures { result ≡ certificate.potential_of (whole_of (field_of (fields_of row.now) 3)) }
{
    potential_of(field(row, 3))
}

// ---- potentials

fn is_next(next: Option<Account>, a: Account) -> bool
    ensures { result ≡ certificate.is_next next a }
{
    match next {
        Some(b) => is_same(b, a),
        None => false,
    }
}

// The account of a line, which has to be the next live one, with its potential.
fn judge_potential(
    classes: &Classes,
    next: Option<Account>,
    row: &ByteRecord,
) -> Result<(Account, i128), CertCause>
    ensures { result ≡ certificate.potential_read classes.now next (fields_of row.now) }
{
    if !has_width(row, 4) {
        return Err(CertCause::Csv);
    }
    let account = match account_of(classes, row) {
        Ok(account) => account,
        Err(cause) => return Err(cause),
    };
    if !is_next(next, account) {
        return Err(CertCause::WrongAccount);
    }
    match line_potential(row) {
        Ok(number) => Ok((account, number)),
        Err(cause) => Err(cause),
    }
}

// The live account that comes after the first ones.
fn account_after(live: &[Account], given: usize) -> Option<Account>
    ensures { result ≡ slice_get live.now given }
{
    live.get(given).copied()
}

// Takes over the account and the potential of a line.
fn add_potential(
    classes: &Classes,
    live: &[Account],
    line: u64,
    row: &ByteRecord,
    given: &mut Vec<(Account, i128)>,
) -> Result<(), CertFault>
    ensures { (IfErr result (λ e. e.cause ≢ CertCause.NoMemory)) → certificate.potential_line classes.now live.now line given.old.items (fields_of row.now) ≡ and_then result (λ _. Ok given.new.items) }
{
    let next = account_after(live, given.len());
    let pair = match judge_potential(classes, next, row) {
        Ok(pair) => pair,
        Err(cause) => return Err(CertFault { line, cause }),
    };
    match given.push(pair) {
        Ok(()) => Ok(()),
        Err(_) => Err(CertFault {
            line,
            cause: CertCause::NoMemory,
        }),
    }
}

// Takes the next record.
fn next_line(records: &mut Records<'_>, row: &mut ByteRecord, line: u64) -> Result<bool, CertFault>
    ensures next { IfOk result (λ found. MatchBool found (records.old ≡ fields_of row.new ∷ records.new) (records.old ≡ [])) }
    ensures memory { IfErr result (λ e. e.cause ≡ CertCause.NoMemory) }
{
    match records.next(row) {
        Ok(found) => Ok(found),
        Err(_) => Err(CertFault {
            line,
            cause: CertCause::NoMemory,
        }),
    }
}

// Reads the lines that are left, the first of them line 2, and gives the line after the last one.
fn read_potential_lines(
    classes: &Classes,
    live: &[Account],
    records: &mut Records<'_>,
    row: &mut ByteRecord,
    given: &mut Vec<(Account, i128)>,
) -> Result<u64, CertFault>
    requires few { length records.old < 2 ^ 63 }
    requires none { given.old.items ≡ [] }
    ensures value { (IfErr result (λ e. e.cause ≢ CertCause.NoMemory)) → read_lines (certificate.potential_line classes.now live.now) 2 [] records.old ≡ and_then result (λ _. Ok given.new.items) }
    ensures end { IfOk result (λ n. n ≡ length records.old + 2) }
{
    let mut line: u64 = 2;
    'lines: while next_line(records, row, line)? {
        if let Err(fault) = add_potential(classes, live, line, row, given) {
            return Err(fault);
        }
        line += 1;
    }
    Ok(line)
}

// Reads potentials: a line for each live account.
fn read_potentials(
    alloc: Global,
    classes: &Classes,
    live: &[Account],
    records: &mut Records<'_>,
    row: &mut ByteRecord,
) -> Result<Certificate, CertFault>
    requires few { length records.old < 2 ^ 63 }
    requires ascending { IsAccountSet live.now }
    ensures { (IfErr result (λ e. e.cause ≢ CertCause.NoMemory)) → result ≡ and_then (certificate.potentials_in classes.now live.now records.old) (λ ps. Ok (Certificate.Potentials ps)) }
{
    let mut given = Vec::new(alloc);
    let line = match read_potential_lines(classes, live, records, row, &mut given) {
        Ok(line) => line,
        Err(fault) => return Err(fault),
    };
    if given.len() < live.len() {
        return Err(CertFault {
            line,
            cause: CertCause::Short,
        });
    }
    match Potentials::of(given) {
        Some(potentials) => Ok(Certificate::Potentials(potentials)),
        None => unreachable!(),
    }
}

// ---- a cut

fn is_above(last: Option<Account>, a: Account) -> bool
    ensures { result ≡ certificate.is_above last a }
{
    match last {
        Some(b) => comes_before(b, a),
        None => true,
    }
}

// The account of a line, which has to be live and above the last one.
fn judge_account(
    classes: &Classes,
    live: &[Account],
    last: Option<Account>,
    row: &ByteRecord,
) -> Result<Account, CertCause>
    requires { IsAccountSet live.now }
    ensures { result ≡ certificate.cut_read classes.now live.now last (fields_of row.now) }
{
    if !has_width(row, 3) {
        return Err(CertCause::Csv);
    }
    let account = match account_of(classes, row) {
        Ok(account) => account,
        Err(cause) => return Err(cause),
    };
    if !is_among(live, account) {
        return Err(CertCause::WrongAccount);
    }
    if !is_above(last, account) {
        return Err(CertCause::WrongAccount);
    }
    Ok(account)
}

fn last_of(set: &[Account]) -> Option<Account>
    ensures { result ≡ certificate.last_of set.now }
{
    set.last().copied()
}

// Takes over the account of a line.
fn add_account(
    classes: &Classes,
    live: &[Account],
    line: u64,
    row: &ByteRecord,
    set: &mut Vec<Account>,
) -> Result<(), CertFault>
    requires { IsAccountSet live.now }
    ensures { (IfErr result (λ e. e.cause ≢ CertCause.NoMemory)) → certificate.cut_line classes.now live.now line set.old.items (fields_of row.now) ≡ and_then result (λ _. Ok set.new.items) }
{
    let last = last_of(set);
    let account = match judge_account(classes, live, last, row) {
        Ok(account) => account,
        Err(cause) => return Err(CertFault { line, cause }),
    };
    match set.push(account) {
        Ok(()) => Ok(()),
        Err(_) => Err(CertFault {
            line,
            cause: CertCause::NoMemory,
        }),
    }
}

// Reads the lines that are left, the first of them line 2.
fn read_account_lines(
    classes: &Classes,
    live: &[Account],
    records: &mut Records<'_>,
    row: &mut ByteRecord,
    set: &mut Vec<Account>,
) -> Result<(), CertFault>
    requires few { length records.old < 2 ^ 63 }
    requires ascending { IsAccountSet live.now }
    requires none { set.old.items ≡ [] }
    ensures { (IfErr result (λ e. e.cause ≢ CertCause.NoMemory)) → read_lines (certificate.cut_line classes.now live.now) 2 [] records.old ≡ and_then result (λ _. Ok set.new.items) }
{
    let mut line: u64 = 2;
    'lines: while next_line(records, row, line)? {
        if let Err(fault) = add_account(classes, live, line, row, set) {
            return Err(fault);
        }
        line += 1;
    }
    Ok(())
}

// Reads a cut: live accounts, in order.
fn read_cut(
    alloc: Global,
    classes: &Classes,
    live: &[Account],
    records: &mut Records<'_>,
    row: &mut ByteRecord,
) -> Result<Certificate, CertFault>
    requires few { length records.old < 2 ^ 63 }
    requires ascending { IsAccountSet live.now }
    ensures { (IfErr result (λ e. e.cause ≢ CertCause.NoMemory)) → result ≡ and_then (certificate.cut_in classes.now live.now records.old) (λ set. Ok (Certificate.Cut set)) }
{
    let mut set = Vec::new(alloc);
    match read_account_lines(classes, live, records, row, &mut set) {
        Ok(()) => {}
        Err(fault) => return Err(fault),
    }
    match AccountSet::of(set) {
        Some(accounts) => Ok(Certificate::Cut(accounts)),
        None => unreachable!(),
    }
}

// ---- the file

fn is_potentials_header(row: &ByteRecord) -> bool
    ensures { result ≡ same_fields (fields_of row.now) certificate.potentials_header }
{
    has_fields(
        row,
        &[
            b"account".as_slice(),
            b"a".as_slice(),
            b"b".as_slice(),
            b"potential".as_slice(),
        ],
    )
}

fn is_cut_header(row: &ByteRecord) -> bool
    ensures { result ≡ same_fields (fields_of row.now) certificate.cut_header }
{
    has_fields(
        row,
        &[b"account".as_slice(), b"a".as_slice(), b"b".as_slice()],
    )
}

// Reads a certificate of these classes and live accounts.
fn read_file(
    alloc: Global,
    classes: &Classes,
    live: &[Account],
    bytes: &[u8],
) -> Result<Certificate, CertFault>
    requires { IsAccountSet live.now }
    ensures { (IfErr result (λ e. e.cause ≢ CertCause.NoMemory)) → result ≡ certificate.certificate_in classes.now live.now (records_of bytes.now) }
{
    let mut records = Records::new(alloc, bytes);
    let mut row = ByteRecord::new(alloc);
    if !next_line(&mut records, &mut row, 1)? {
        return Err(CertFault {
            line: 1,
            cause: CertCause::Header,
        });
    }
    if is_potentials_header(&row) {
        return read_potentials(alloc, classes, live, &mut records, &mut row);
    }
    if is_cut_header(&row) {
        return read_cut(alloc, classes, live, &mut records, &mut row);
    }
    Err(CertFault {
        line: 1,
        cause: CertCause::Header,
    })
}

/// Reads a certificate of a problem, or answers its first fault with its line. The records of the
/// text are those of the certificate, whose accounts are live.
pub fn read_certificate(alloc: Global, p: &Problem, bytes: &[u8]) -> Result<Certificate, CertFault>
    ensures value { (IfErr result (λ e. e.cause ≢ CertCause.NoMemory)) → result ≡ certificate.certificate_of p.now bytes.now }
    ensures spelled { IfOk result (λ c. records_of bytes.now ≡ certificate_records p.now.classes c) }
    ensures names { IfOk result (NamesLiveAccounts p.now) }
{
    let live = match live_accounts(alloc, p) {
        Ok(live) => live,
        Err(_) => {
            return Err(CertFault {
                line: 1,
                cause: CertCause::NoMemory,
            });
        }
    };
    read_file(alloc, p.classes(), &live, bytes)
}
