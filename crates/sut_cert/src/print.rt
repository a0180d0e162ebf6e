//! Printing `certificate.csv`.

ghost use Rattle.std.specs.Prelude.{◌≡◌, ◌≤◌, ◌++◌, Ok, IfOk, OnOk, length, map};
ghost use Rattle.std.specs.List.{flat_map};
ghost use Rattle.sut_text.specs.Text.{line_text};
ghost use Rattle.sut_measures.specs.Names.{account_fields};
ghost use Rattle.sut_cert.specs.Certificates.{IsAccountSet, IsPotentials};
ghost use Rattle.sut_cert.specs.CertificateFile.{certificate_of};
ghost use Rattle.sut_cert.specs.CertificateText.{NamesLiveAccounts, certificate_text, cut_text, potential_fields, potentials_text};

use crate::{AccountSet, Certificate, Potentials};
use no_memory::NoMemory;
use std::alloc::Global;
use sut_classes::Classes;
use sut_measures::{Account, put_account};
use sut_tables::Problem;
use sut_text::fields::{Field, put_line, put_line_end};
use sut_text::put_byte;

fn put_potential(
    out: &mut Vec<u8>,
    classes: &Classes,
    pair: (Account, i128),
) -> Result<(), NoMemory>
    ensures { OnOk result (out.new.items ≡ out.old.items ++ line_text (potential_fields classes.now pair)) }
{
    put_account(out, classes, pair.0)?;
    put_line_end(out, &[Field::Whole(pair.1)])
}

fn put_potentials(
    out: &mut Vec<u8>,
    classes: &Classes,
    pairs: &[(Account, i128)],
) -> Result<(), NoMemory>
    ensures { OnOk result (out.new.items ≡ out.old.items ++ flat_map line_text (map (potential_fields classes.now) pairs.now)) }
{
    for pair in pairs {
        put_potential(out, classes, *pair)?;
    }
    Ok(())
}

fn put_name_line(out: &mut Vec<u8>, classes: &Classes, account: Account) -> Result<(), NoMemory>
    ensures { OnOk result (out.new.items ≡ out.old.items ++ line_text (account_fields classes.now account)) }
{
    put_account(out, classes, account)?;
    put_byte(out, b'\n')
}

fn put_accounts(out: &mut Vec<u8>, classes: &Classes, accounts: &[Account]) -> Result<(), NoMemory>
    ensures { OnOk result (out.new.items ≡ out.old.items ++ flat_map line_text (map (account_fields classes.now) accounts.now)) }
{
    for account in accounts {
        put_name_line(out, classes, *account)?;
    }
    Ok(())
}

fn print_potentials(
    alloc: Global,
    classes: &Classes,
    potentials: &Potentials,
) -> Result<Vec<u8>, NoMemory>
    ensures text { IfOk result (λ t. t.items ≡ potentials_text classes.now potentials.now) }
    ensures kept { IsPotentials potentials.now }
{
    let pairs = potentials.pairs();
    let mut out = Vec::new(alloc);
    put_line(
        &mut out,
        &[
            Field::Text(b"account"),
            Field::Text(b"a"),
            Field::Text(b"b"),
            Field::Text(b"potential"),
        ],
    )?;
    put_potentials(&mut out, classes, pairs)?;
    Ok(out)
}

fn print_cut(alloc: Global, classes: &Classes, set: &AccountSet) -> Result<Vec<u8>, NoMemory>
    ensures text { IfOk result (λ t. t.items ≡ cut_text classes.now set.now) }
    ensures kept { IsAccountSet set.now }
{
    let accounts = set.accounts();
    let mut out = Vec::new(alloc);
    put_line(
        &mut out,
        &[
            Field::Text(b"account"),
            Field::Text(b"a"),
            Field::Text(b"b"),
        ],
    )?;
    put_accounts(&mut out, classes, accounts)?;
    Ok(out)
}

/// The text of a certificate: its header, and a line for each account, in order. The accounts of
/// potentials are the live accounts of the problem, and those of a set are live. The text reads back
/// as the same certificate, and has at most 67,108,864 bytes.
pub fn print_certificate(alloc: Global, p: &Problem, c: &Certificate) -> Result<Vec<u8>, NoMemory>
    requires { NamesLiveAccounts p.now c.now }
    ensures text { IfOk result (λ t. t.items ≡ certificate_text p.now.classes c.now) }
    ensures reads_back { IfOk result (λ t. certificate_of p.now t.items ≡ Ok c.now) }
    ensures size { IfOk result (λ t. length t.items ≤ 67108864) }
{
    p.kept();
    let classes = p.classes();
    classes.kept();
    match c {
        Certificate::Potentials(potentials) => print_potentials(alloc, classes, potentials),
        Certificate::Cut(set) => print_cut(alloc, classes, set),
    }
}
