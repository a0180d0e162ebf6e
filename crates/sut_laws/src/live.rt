//! Which measures and accounts are live, and that keys tell them apart.

ghost use Rattle.sut_laws.specs.Live.{LiveMeasuresAreListed, LiveAccountsAreListed, KeysTellApart};

/// The live measures are those that have a row and the totals of which a cell has one, in ascending order.
pub fn live_measures_are_listed()
    ensures { LiveMeasuresAreListed }
{}

/// The live accounts are those that a live measure leaves or enters, in ascending order.
pub fn live_accounts_are_listed()
    ensures { LiveAccountsAreListed }
{}

/// Two measures, or two accounts, with one key are one.
pub fn keys_tell_apart()
    ensures { KeysTellApart }
{}
