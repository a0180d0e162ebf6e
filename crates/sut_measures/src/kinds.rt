//! The kinds of names, each of one word, in the order of measures and of accounts.

ghost use Rattle.std.specs.Prelude.{◌≡◌};
ghost use Rattle.sut_measures.specs.Kinds as words;

/// The kinds of cells.
#[derive(Clone, Copy)]
pub enum CellKind {
    Make,
    Import,
    Basic,
    Margin,
    Tax,
    Service,
    Added,
}

/// The kinds of totals but those of groups.
#[derive(Clone, Copy)]
pub enum TotalKind {
    Purchase,
    Supply,
    Output,
    Inputs,
    ValueAdded,
    ItemTotal,
    FinalTotal,
    ImportTotal,
    MarginTotal,
    MarginProduct,
    TaxTotal,
    TaxProduct,
    Gdp,
}

/// The totals of groups.
#[derive(Clone, Copy)]
pub enum GroupKind {
    Make,
    Import,
    Purchase,
    Margin,
    Tax,
    Item,
}

/// The kinds of accounts but those of groups.
#[derive(Clone, Copy)]
pub enum AccountKind {
    Supplied,
    Used,
    Bought,
    Buying,
    Adding,
    Industry,
    Making,
    Final,
    Item,
    Imports,
    Services,
    Margins,
    MarginOf,
    Taxes,
    TaxOf,
    Spending,
    Income,
}

/// The accounts of groups.
#[derive(Clone, Copy)]
pub enum GroupAccountKind {
    Making,
    Importing,
    Buying,
    Margin,
    Tax,
    Item,
}

fn cell_word(kind: CellKind) -> &'static [u8]
    ensures { result.now ≡ words.cell_word kind }
{
    match kind {
        CellKind::Make => b"make",
        CellKind::Import => b"import",
        CellKind::Basic => b"basic",
        CellKind::Margin => b"margin",
        CellKind::Tax => b"tax",
        CellKind::Service => b"service",
        CellKind::Added => b"added",
    }
}

/// The kind of cells of this word.
pub fn cell_kind(word: &[u8]) -> Option<CellKind>
    ensures { result ≡ words.kind_named words.cell_word words.cell_kinds word.now }
{
    let kinds = [
        CellKind::Make,
        CellKind::Import,
        CellKind::Basic,
        CellKind::Margin,
        CellKind::Tax,
        CellKind::Service,
        CellKind::Added,
    ];
    kinds.iter().copied().find(|kind| word == cell_word(*kind))
}

fn total_word(kind: TotalKind) -> &'static [u8]
    ensures { result.now ≡ words.total_word kind }
{
    match kind {
        TotalKind::Purchase => b"purchase",
        TotalKind::Supply => b"supply",
        TotalKind::Output => b"output",
        TotalKind::Inputs => b"inputs",
        TotalKind::ValueAdded => b"value_added",
        TotalKind::ItemTotal => b"item_total",
        TotalKind::FinalTotal => b"final_total",
        TotalKind::ImportTotal => b"import_total",
        TotalKind::MarginTotal => b"margin_total",
        TotalKind::MarginProduct => b"margin_product",
        TotalKind::TaxTotal => b"tax_total",
        TotalKind::TaxProduct => b"tax_product",
        TotalKind::Gdp => b"gdp",
    }
}

/// The kind of totals of this word, but for those of groups.
pub fn total_kind(word: &[u8]) -> Option<TotalKind>
    ensures { result ≡ words.kind_named words.total_word words.total_kinds word.now }
{
    let kinds = [
        TotalKind::Purchase,
        TotalKind::Supply,
        TotalKind::Output,
        TotalKind::Inputs,
        TotalKind::ValueAdded,
        TotalKind::ItemTotal,
        TotalKind::FinalTotal,
        TotalKind::ImportTotal,
        TotalKind::MarginTotal,
        TotalKind::MarginProduct,
        TotalKind::TaxTotal,
        TotalKind::TaxProduct,
        TotalKind::Gdp,
    ];
    kinds.iter().copied().find(|kind| word == total_word(*kind))
}

fn group_word(kind: GroupKind) -> &'static [u8]
    ensures { result.now ≡ words.group_word kind }
{
    match kind {
        GroupKind::Make => b"make_group",
        GroupKind::Import => b"import_group",
        GroupKind::Purchase => b"purchase_group",
        GroupKind::Margin => b"margin_group",
        GroupKind::Tax => b"tax_group",
        GroupKind::Item => b"item_group",
    }
}

/// The kind of groups' totals of this word.
pub fn group_kind(word: &[u8]) -> Option<GroupKind>
    ensures { result ≡ words.kind_named words.group_word words.group_kinds word.now }
{
    let kinds = [
        GroupKind::Make,
        GroupKind::Import,
        GroupKind::Purchase,
        GroupKind::Margin,
        GroupKind::Tax,
        GroupKind::Item,
    ];
    kinds.iter().copied().find(|kind| word == group_word(*kind))
}

fn account_word(kind: AccountKind) -> &'static [u8]
    ensures { result.now ≡ words.account_word kind }
{
    match kind {
        AccountKind::Supplied => b"supplied",
        AccountKind::Used => b"used",
        AccountKind::Bought => b"bought",
        AccountKind::Buying => b"buying",
        AccountKind::Adding => b"adding",
        AccountKind::Industry => b"industry",
        AccountKind::Making => b"making",
        AccountKind::Final => b"final",
        AccountKind::Item => b"item",
        AccountKind::Imports => b"imports",
        AccountKind::Services => b"services",
        AccountKind::Margins => b"margins",
        AccountKind::MarginOf => b"margin_of",
        AccountKind::Taxes => b"taxes",
        AccountKind::TaxOf => b"tax_of",
        AccountKind::Spending => b"spending",
        AccountKind::Income => b"income",
    }
}

/// The kind of accounts of this word, but for those of groups.
pub fn account_kind(word: &[u8]) -> Option<AccountKind>
    ensures { result ≡ words.kind_named words.account_word words.account_kinds word.now }
{
    let kinds = [
        AccountKind::Supplied,
        AccountKind::Used,
        AccountKind::Bought,
        AccountKind::Buying,
        AccountKind::Adding,
        AccountKind::Industry,
        AccountKind::Making,
        AccountKind::Final,
        AccountKind::Item,
        AccountKind::Imports,
        AccountKind::Services,
        AccountKind::Margins,
        AccountKind::MarginOf,
        AccountKind::Taxes,
        AccountKind::TaxOf,
        AccountKind::Spending,
        AccountKind::Income,
    ];
    kinds
        .iter()
        .copied()
        .find(|kind| word == account_word(*kind))
}

fn group_account_word(kind: GroupAccountKind) -> &'static [u8]
    ensures { result.now ≡ words.group_account_word kind }
{
    match kind {
        GroupAccountKind::Making => b"making_in",
        GroupAccountKind::Importing => b"importing",
        GroupAccountKind::Buying => b"buying_in",
        GroupAccountKind::Margin => b"margin_in",
        GroupAccountKind::Tax => b"tax_in",
        GroupAccountKind::Item => b"item_in",
    }
}

/// The kind of groups' accounts of this word.
pub fn group_account_kind(word: &[u8]) -> Option<GroupAccountKind>
    ensures { result ≡ words.kind_named words.group_account_word words.group_account_kinds word.now }
{
    let kinds = [
        GroupAccountKind::Making,
        GroupAccountKind::Importing,
        GroupAccountKind::Buying,
        GroupAccountKind::Margin,
        GroupAccountKind::Tax,
        GroupAccountKind::Item,
    ];
    kinds
        .iter()
        .copied()
        .find(|kind| word == group_account_word(*kind))
}
