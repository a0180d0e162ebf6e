//! The printed accounts add up (SNA 2008, 2.138 to 2.140).

ghost use Rattle.sut_laws.specs.PrintedAccounts.{GdpIsSummed, AccountsReadBack, PrintedAccountsAddUp};

/// GDP by production, income and expenditure is the sum of the numbers that the accounts print.
pub fn gdp_is_summed()
    ensures { GdpIsSummed }
{}

/// `accounts.csv` reads back as its lines, each with a number.
pub fn accounts_read_back()
    ensures { AccountsReadBack }
{}

/// In `accounts.csv` the line `gdp` of each account is the sum, with signs, of the lines above it.
pub fn printed_accounts_add_up()
    ensures { PrintedAccountsAddUp }
{}
