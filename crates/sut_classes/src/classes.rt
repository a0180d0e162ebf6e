//! The lists of classes of one year, as contracts see them: `ClassLists`.

ghost use Rattle.std.specs.Prelude.{◌≡◌, ◌≤◌, ◌+◌, ◌++◌, ◌∷◌, [], IfOk, IsTrue, None, OnOk, ◌==◌, ◌||◌, option_map, slice_get};
ghost use Rattle.sut_classes.specs.Places.{code_at, codes_of, column_of, count_of, kind_at, place_of};
ghost use Rattle.sut_classes.specs.Groups.{group_at, industry_group_at};
ghost use Rattle.sut_classes.specs.ClassFile.{no_classes, with_code};
ghost use Rattle.sut_classes.specs.Kept.{IsClasses, MayAdd};

use crate::codes::Codes;
use crate::ids::{
    Axis, Column, FinalId, IndustryGroupId, IndustryId, MarginId, ProductGroupId, ProductId,
};
use crate::lists::{IndustryList, ProductFacts, ProductList};
use no_memory::NoMemory;
use std::alloc::{AllocError, Global};
use std::marker::Model;

/// The codes of the axes that have nothing beside their codes.
struct OtherLists {
    finals: Codes,
    items: Codes,
    margins: Codes,
    taxes: Codes,
    product_groups: Codes,
    industry_groups: Codes,
}

impl Drop for OtherLists {
    fn drop(self) {
        let OtherLists {
            finals,
            items,
            margins,
            taxes,
            product_groups,
            industry_groups,
        } = self;
        drop(finals);
        drop(items);
        drop(margins);
        drop(taxes);
        drop(product_groups);
        drop(industry_groups);
    }
}

/// The classes of one year: a format, and the codes of eight axes in the order of the file, with
/// the kind and group of each product and the group of each industry.
pub struct Classes {
    file_format: u8,
    all_products: ProductList,
    all_industries: IndustryList,
    others: OtherLists,
}

impl Drop for Classes {
    fn drop(self) {
        let Classes {
            file_format: _,
            all_products,
            all_industries,
            others,
        } = self;
        drop(all_products);
        drop(all_industries);
        drop(others);
    }
}

impl Model for Classes {
    ghost use Rattle.sut_classes.specs.ClassLists.{ClassLists};
    ghost use Rattle.sut_classes.specs.ClassFields.{AreKept, lists_of};

    ghost Value = { ClassLists };

    ghost view = { lists_of };

    ghost invariant = { AreKept };
}

impl OtherLists {
    // The same codes, under the same allocators.
    fn copy(&self) -> Result<OtherLists, NoMemory>
        ensures { IfOk result (λ c. c ≡ self.now) }
    {
        Ok(OtherLists {
            finals: self.finals.copy()?,
            items: self.items.copy()?,
            margins: self.margins.copy()?,
            taxes: self.taxes.copy()?,
            product_groups: self.product_groups.copy()?,
            industry_groups: self.industry_groups.copy()?,
        })
    }
}

impl Classes {
    // The classes of a file without lines.
    pub(crate) fn empty(alloc: Global, format: u8) -> Classes
        requires { IsTrue ((format == 1) || (format == 2)) }
        ensures { result ≡ no_classes format }
    {
        Classes {
            file_format: format,
            all_products: ProductList::new(alloc),
            all_industries: IndustryList::new(alloc),
            others: OtherLists {
                finals: Codes::new(alloc),
                items: Codes::new(alloc),
                margins: Codes::new(alloc),
                taxes: Codes::new(alloc),
                product_groups: Codes::new(alloc),
                industry_groups: Codes::new(alloc),
            },
        }
    }

    /// What all classes keep, as a fact: the call does nothing.
    pub fn kept(&self)
        ensures { IsClasses self.now }
    {
        let _format = &self.file_format;
    }

    /// Classes that are equal to these, under the same allocator.
    pub fn copy(&self) -> Result<Classes, NoMemory>
        ensures { IfOk result (λ c. c ≡ self.now) }
    {
        let all_products = self.all_products.copy()?;
        let all_industries = self.all_industries.copy()?;
        let others = self.others.copy()?;
        Ok(Classes {
            file_format: self.file_format,
            all_products,
            all_industries,
            others,
        })
    }

    /// The format of the file, 1 or 2.
    pub fn format(&self) -> u8
        ensures { result ≡ self.now.format }
    {
        self.file_format
    }

    fn codes(&self, axis: Axis) -> &Codes
        ensures { result.now ≡ codes_of self.now axis }
    {
        match axis {
            Axis::Product => self.all_products.codes(),
            Axis::Industry => self.all_industries.codes(),
            Axis::Final => &self.others.finals,
            Axis::Item => &self.others.items,
            Axis::Margin => &self.others.margins,
            Axis::Tax => &self.others.taxes,
            Axis::ProductGroup => &self.others.product_groups,
            Axis::IndustryGroup => &self.others.industry_groups,
        }
    }

    /// How many codes an axis has, up to the axis's limit.
    pub fn count(&self, axis: Axis) -> usize
        ensures count { result ≡ count_of self.now axis }
        ensures limit { result ≤ 512 }
    {
        self.codes(axis).len()
    }

    /// The place of a code in the list of its axis, from 0; none where it isn't there.
    pub fn find(&self, axis: Axis, code: &[u8]) -> Option<u16>
        ensures { result ≡ place_of self.now axis code.now }
    {
        self.codes(axis).find(code)
    }

    /// The code at a place of an axis, from 0; none where the place isn't there.
    pub fn code(&self, axis: Axis, place: u16) -> Option<&[u8]>
        ensures { option_map (λ c. c.now) result ≡ code_at self.now axis place }
    {
        self.codes(axis).get(place)
    }

    /// The column that a code names, an industry's or a final use's; none where it is neither's.
    pub fn column(&self, code: &[u8]) -> Option<Column>
        ensures { result ≡ column_of self.now code.now }
    {
        if let Some(place) = self.find(Axis::Industry, code) {
            return Some(Column::Industry(IndustryId(place)));
        }
        match self.find(Axis::Final, code) {
            Some(place) => Some(Column::Final(FinalId(place))),
            None => None,
        }
    }

    /// The margin kind of a product; none where it is plain or isn't there.
    pub fn kind_of(&self, product: ProductId) -> Option<MarginId>
        ensures { result ≡ kind_at self.now product }
    {
        match self.all_products.facts(product.0) {
            Some(facts) => facts.kind,
            None => None,
        }
    }

    /// The group of a product; none where it is in no group or isn't there.
    pub fn group_of(&self, product: ProductId) -> Option<ProductGroupId>
        ensures { result ≡ group_at self.now product }
    {
        match self.all_products.facts(product.0) {
            Some(facts) => facts.group,
            None => None,
        }
    }

    /// The group of an industry; none where it is in no group or isn't there.
    pub fn group_of_industry(&self, industry: IndustryId) -> Option<IndustryGroupId>
        ensures { result ≡ industry_group_at self.now industry }
    {
        match self.all_industries.group(industry.0) {
            Some(group) => group,
            None => None,
        }
    }
}

impl Classes {
    // Adds a code that may be added.
    pub(crate) fn add(
        &mut self,
        axis: Axis,
        code: Vec<u8>,
        kind: Option<u16>,
        group: Option<u16>,
    ) -> Result<(), AllocError>
        requires { MayAdd self.old axis code.items kind group }
        ensures { OnOk result (self.new ≡ with_code self.old axis code.items kind group) }
    {
        match axis {
            Axis::Product => self.all_products.push(
                code,
                ProductFacts {
                    kind: kind.map(|k| MarginId(k)),
                    group: group.map(|g| ProductGroupId(g)),
                },
            ),
            Axis::Industry => self
                .all_industries
                .push(code, group.map(|g| IndustryGroupId(g))),
            Axis::Final => self.others.finals.push(code),
            Axis::Item => self.others.items.push(code),
            Axis::Margin => self.others.margins.push(code),
            Axis::Tax => self.others.taxes.push(code),
            Axis::ProductGroup => self.others.product_groups.push(code),
            Axis::IndustryGroup => self.others.industry_groups.push(code),
        }
    }
}
