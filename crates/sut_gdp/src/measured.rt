//! What `gdp` answers.

/// GDP in whole currency units.
#[derive(Debug, Clone, Copy, PartialEq, Eq)]
pub struct Gdp {
    /// All outputs less all inputs plus all taxes on products, subsidies among them.
    pub production: i128,
    /// All added items plus all taxes on products.
    pub income: i128,
    /// All purchases by final uses less all imports.
    pub expenditure: i128,
}
