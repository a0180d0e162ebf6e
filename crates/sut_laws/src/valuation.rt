//! From basic to purchasers' prices (SNA 2008, 6.51 and 6.64, and chapter 14).

ghost use Rattle.sut_laws.specs.Valuation.{PurchasersPrices, TaxTotals, MarginTotals, MarginColumnsCancel, SupplyIsPurchased};

/// Purchases at purchasers' prices are basic values plus all margins plus all taxes less subsidies.
pub fn purchasers_prices()
    ensures { PurchasersPrices }
{}

/// The total of a kind of tax is the sum over its products.
pub fn tax_totals()
    ensures { TaxTotals }
{}

/// The total of a kind of margin is the sum over its products.
pub fn margin_totals()
    ensures { MarginTotals }
{}

/// Each margin column of the supply table sums to 0.
pub fn margin_columns_cancel()
    ensures { MarginColumnsCancel }
{}

/// A product's supply at purchasers' prices is the sum of its purchases.
pub fn supply_is_purchased()
    ensures { SupplyIsPurchased }
{}
