//! Potentials and sets of accounts, in account order.

ghost use Rattle.std.specs.Prelude.{◌≡◌, ◌↔◌, ◌<◌, length, IfNone, IfSome, IsTrue, None};
ghost use Rattle.std.specs.List.{HoldsAt, list_all};
ghost use Rattle.sut_measures.specs.Keys.{account_key};
ghost use Rattle.sut_tables.specs.InOrder.{IsAscending, key_before, same_key};
ghost use Rattle.sut_cert.specs.Certificates.{IsAccountSet, IsPairOf, IsPotential, IsPotentials, has_account, is_potential, has_potential, pair_key, potential_at};

use std::marker::Model;
use sut_measures::Account;
use sut_measures::orders::account_order;

// The largest potential.
const LIMIT: i128 = 1_000_000_000_000_000_000_000_000;

/// Potentials of -10^24 to 10^24 of accounts in account order, each account once.
#[derive(Drop)]
pub struct Potentials {
    pairs: Vec<(Account, i128)>,
}

impl Model for Potentials {
    ghost use Rattle.std.specs.Prelude.{List, ℤ};
    ghost use Rattle.sut_measures.specs.declared.accounts.Account.{Account};

    ghost Value = { List (Account × ℤ) };

    ghost use Rattle.sut_cert.specs.Certificates.{IsPotentials};

    ghost view = { λ c. c.pairs.items };

    ghost invariant = { λ c. IsPotentials c.pairs.items };
}

/// Accounts in account order, each once.
#[derive(Drop)]
pub struct AccountSet {
    accounts: Vec<Account>,
}

impl Model for AccountSet {
    ghost use Rattle.std.specs.Prelude.{List};
    ghost use Rattle.sut_measures.specs.declared.accounts.Account.{Account};

    ghost Value = { List Account };

    ghost use Rattle.sut_cert.specs.Certificates.{IsAccountSet};

    ghost view = { λ s. s.accounts.items };

    ghost invariant = { λ s. IsAccountSet s.accounts.items };
}

/// Potentials that show a table least, or a set of accounts that shows that no table is admissible.
#[derive(Drop)]
pub enum Certificate {
    Potentials(Potentials),
    Cut(AccountSet),
}

// Whether the first account comes before the second one.
pub(crate) fn comes_before(a: Account, b: Account) -> bool
    ensures { result ≡ key_before (account_key a) (account_key b) }
{
    account_order(a, b).is_lt()
}

pub(crate) fn is_same(a: Account, b: Account) -> bool
    ensures { result ≡ same_key (account_key a) (account_key b) }
{
    account_order(a, b).is_eq()
}

// Whether a number may be a potential.
pub(crate) fn is_in_range(x: i128) -> bool
    ensures { result ≡ is_potential x }
{
    -LIMIT <= x && x <= LIMIT
}

fn pairs_ascend(pairs: &[(Account, i128)]) -> bool
    ensures { IsTrue result ↔ IsAscending pair_key pairs.now }
{
    pairs.is_sorted_by(|a, b| comes_before(a.0, b.0))
}

fn accounts_ascend(accounts: &[Account]) -> bool
    ensures { IsTrue result ↔ IsAccountSet accounts.now }
{
    accounts.is_sorted_by(|a, b| comes_before(*a, *b))
}

fn are_in_range(pairs: &[(Account, i128)]) -> bool
    ensures { result ≡ list_all has_potential pairs.now }
{
    pairs.iter().all(|p| is_in_range(p.1))
}

fn are_potentials(pairs: &[(Account, i128)]) -> bool
    ensures { IsTrue result ↔ IsPotentials pairs.now }
{
    if !pairs_ascend(pairs) {
        return false;
    }
    are_in_range(pairs)
}

// The place of an account's pair among pairs in order, if it is among them.
fn place_of(pairs: &[(Account, i128)], a: Account) -> Option<usize>
    requires { IsAscending pair_key pairs.now }
    ensures held { IfSome result (λ i. (i < length pairs.now) × HoldsAt (IsPairOf a) pairs.now i) }
    ensures absent { IfNone result (potential_at pairs.now a ≡ None) }
{
    match pairs.binary_search_by_key(&a, |p| p.0) {
        Ok(place) => Some(place),
        Err(_) => None,
    }
}

// Whether an account is among accounts in order.
pub(crate) fn is_among(accounts: &[Account], a: Account) -> bool
    requires { IsAccountSet accounts.now }
    ensures { result ≡ has_account accounts.now a }
{
    accounts.binary_search(&a).is_ok()
}

impl Potentials {
    /// Potentials of these accounts. None comes exactly where the accounts aren't strictly
    /// ascending, or a number lies outside -10^24 to 10^24.
    pub fn of(pairs: Vec<(Account, i128)>) -> Option<Potentials>
        ensures made { IfSome result (λ c. c ≡ pairs.items) }
        ensures good { IfSome result IsPotentials }
        ensures bad { IfNone result (¬ IsPotentials pairs.items) }
    {
        if are_potentials(&pairs) {
            Some(Potentials { pairs })
        } else {
            None
        }
    }

    /// The potential of an account, of -10^24 to 10^24, if it has one.
    pub fn get(&self, a: Account) -> Option<i128>
        ensures value { result ≡ potential_at self.now a }
        ensures range { IfSome result IsPotential }
    {
        match place_of(&self.pairs, a) {
            Some(place) => Some(self.pairs[place].1),
            None => None,
        }
    }

    /// The accounts and their potentials, in account order.
    pub fn pairs(&self) -> &[(Account, i128)]
        ensures all { result.now ≡ self.now }
        ensures kept { IsPotentials self.now }
    {
        &self.pairs
    }
}

impl AccountSet {
    /// The set of these accounts. None comes exactly where they aren't strictly ascending.
    pub fn of(list: Vec<Account>) -> Option<AccountSet>
        ensures made { IfSome result (λ s. s ≡ list.items) }
        ensures good { IfSome result IsAccountSet }
        ensures bad { IfNone result (¬ IsAccountSet list.items) }
    {
        if accounts_ascend(&list) {
            Some(AccountSet { accounts: list })
        } else {
            None
        }
    }

    /// Whether an account is in the set.
    pub fn has(&self, a: Account) -> bool
        ensures { result ≡ has_account self.now a }
    {
        is_among(&self.accounts, a)
    }

    /// The accounts, in account order.
    pub fn accounts(&self) -> &[Account]
        ensures all { result.now ≡ self.now }
        ensures kept { IsAccountSet self.now }
    {
        &self.accounts
    }
}
