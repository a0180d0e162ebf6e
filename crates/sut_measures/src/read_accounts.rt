//! Names of accounts, read.

ghost use Rattle.std.specs.Prelude.{◌≡◌, ◌==◌, if◌then◌else◌, None, Ok, IfOk, IsTrue};
ghost use Rattle.sut_measures.specs.Fits as classes_have;
ghost use Rattle.sut_measures.specs.Kinds as words;
ghost use Rattle.sut_measures.specs.ReadNames.{account_of};

use crate::kind_places::{account_at, group_account_at, read_two};
use crate::kinds::{AccountKind, GroupAccountKind, account_kind, group_account_kind};
use crate::shapes::Place::Nothing;
use crate::shapes::account_shape;
use crate::{Account, NameFault};
use sut_classes::Classes;

fn read_plain_account(
    classes: &Classes,
    kind: AccountKind,
    a: &[u8],
    b: &[u8],
) -> Result<Account, NameFault>
    ensures { result ≡ account_of classes.now (words.account_word kind) a.now b.now }
{
    let due = account_shape(account_at(kind, Nothing, Nothing));
    match read_two(classes, due, a, b) {
        Ok((first, second)) => Ok(account_at(kind, first, second)),
        Err(fault) => Err(fault),
    }
}

/// The account of a group, of classes that have groups.
fn read_group_account(
    classes: &Classes,
    kind: GroupAccountKind,
    a: &[u8],
    b: &[u8],
) -> Result<Account, NameFault>
    requires { classes.now.format ≡ 2 }
    ensures { result ≡ account_of classes.now (words.group_account_word kind) a.now b.now }
{
    let due = account_shape(group_account_at(kind, Nothing, Nothing));
    match read_two(classes, due, a, b) {
        Ok((first, second)) => Ok(group_account_at(kind, first, second)),
        Err(fault) => Err(fault),
    }
}

/// The kind of groups' accounts of this word, of classes that have groups.
fn group_account_kind_of(classes: &Classes, word: &[u8]) -> Option<GroupAccountKind>
    ensures { result ≡ (if classes.now.format == 2 then words.kind_named words.group_account_word words.group_account_kinds word.now else None) }
{
    if classes.format() == 2 {
        group_account_kind(word)
    } else {
        None
    }
}

/// The account of this name, or the name's first fault, in the order word, a, b. It never answers
/// `WrongService`.
pub fn read_account(
    classes: &Classes,
    word: &[u8],
    a: &[u8],
    b: &[u8],
) -> Result<Account, NameFault>
    ensures value { result ≡ account_of classes.now word.now a.now b.now }
    ensures fitting { IfOk result (λ x. IsTrue (classes_have.account_fits classes.now x)) }
{
    if let Some(kind) = account_kind(word) {
        return read_plain_account(classes, kind, a, b);
    }
    match group_account_kind_of(classes, word) {
        Some(kind) => read_group_account(classes, kind, a, b),
        None => Err(NameFault::UnknownKind),
    }
}
