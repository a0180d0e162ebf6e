//! What potentials say of a least table: complementary slackness.

ghost use Rattle.sut_laws.specs.Slackness.{RisesArePrices};

/// Strictly between its bounds a measure's rise of potential lies between its two marginal penalties.
pub fn rises_are_prices()
    ensures { RisesArePrices }
{}
