//! The balances of industries, products and groups (SNA 2008, 6.8 and chapter 14).

ghost use Rattle.sut_laws.specs.Balances.{IndustryBalances, ProductBalances, GroupSums};

/// The output of an industry is its inputs plus its value added.
pub fn industry_balances()
    ensures { IndustryBalances }
{}

/// The supply of a product is its uses and what it serves as margins.
pub fn product_balances()
    ensures { ProductBalances }
{}

/// The total of a group is the sum over its members.
pub fn group_sums()
    ensures { GroupSums }
{}
