//! Products and industries with what their lines say beside the code.

ghost use Rattle.std.specs.Prelude.{◌≡◌, ◌<◌, ◌++◌, ◌∷◌, [], None, IfOk, OnErr, OnOk, length, map, option_map, position, slice_get};
ghost use Rattle.std.specs.Str.{bytes_eq};
ghost use Rattle.sut_classes.specs.ClassView.{facts_of};

use crate::codes::Codes;
use crate::ids::{IndustryGroupId, MarginId, ProductGroupId};
use no_memory::NoMemory;
use std::alloc::{AllocError, Global};
use std::marker::Model;

/// What a product's line says beside its code: the margin kind unless it is plain, and the group
/// if it is in one.
#[derive(Debug, Clone, Copy, PartialEq, Eq)]
pub struct ProductFacts {
    pub kind: Option<MarginId>,
    pub group: Option<ProductGroupId>,
}

/// The products in order. Contracts see the list of them.
pub struct ProductList {
    names: Codes,
    facts: Vec<ProductFacts>,
}

impl Drop for ProductList {
    fn drop(self) {
        let ProductList { names, facts } = self;
        drop(names);
        drop(facts);
    }
}

impl Model for ProductList {
    ghost use Rattle.std.specs.Prelude.{◌≡◌, List, length};
    ghost use Rattle.sut_classes.specs.ClassLists.{ProductClass};
    ghost use Rattle.sut_classes.specs.ClassView.{products_of};

    ghost Value = { List ProductClass };

    ghost view = { λ c. products_of c.names c.facts.items };

    ghost invariant = { λ c. length c.names ≡ length c.facts.items };
}

// The item of a list at a place.
fn item_at<T: Copy>(list: &[T], place: u16) -> Option<T>
    ensures { result ≡ slice_get list.now place }
{
    list.get(place as usize).copied()
}

impl ProductList {
    /// No products.
    pub fn new(alloc: Global) -> ProductList
        ensures { result ≡ [] }
    {
        ProductList {
            names: Codes::new(alloc),
            facts: Vec::new(alloc),
        }
    }

    /// The codes of the products.
    pub fn codes(&self) -> &Codes
        ensures { result.now ≡ map (λ p. p.code) self.now }
    {
        &self.names
    }

    /// What is kept of the product at a place; none where the place isn't there.
    pub fn facts(&self, place: u16) -> Option<ProductFacts>
        ensures { result ≡ option_map facts_of (slice_get self.now place) }
    {
        item_at(&self.facts, place)
    }

    /// Adds a product at the end. After want of memory the products are as before.
    pub fn push(&mut self, code: Vec<u8>, facts: ProductFacts) -> Result<(), AllocError>
        requires absent { position (bytes_eq code.items) (map (λ p. p.code) self.old) ≡ None }
        requires room { length self.old < 512 }
        ensures ok { OnOk result (self.new ≡ self.old ++ record { code = code.items; kind = facts.kind; group = facts.group } ∷ []) }
        ensures err { OnErr result (self.new ≡ self.old) }
    {
        if self.facts.push(facts).is_err() {
            return Err(AllocError);
        }
        if self.names.push(code).is_err() {
            self.facts.pop();
            return Err(AllocError);
        }
        Ok(())
    }

    /// The same products, under the same allocator.
    pub fn copy(&self) -> Result<ProductList, NoMemory>
        ensures { IfOk result (λ c. c ≡ self.now) }
    {
        let alloc = *self.facts.allocator();
        let facts = Vec::from_slice(alloc, &self.facts)?;
        let names = self.names.copy()?;
        Ok(ProductList { names, facts })
    }
}

/// The industries in order. Contracts see the list of them.
pub struct IndustryList {
    names: Codes,
    groups: Vec<Option<IndustryGroupId>>,
}

impl Drop for IndustryList {
    fn drop(self) {
        let IndustryList { names, groups } = self;
        drop(names);
        drop(groups);
    }
}

impl Model for IndustryList {
    ghost use Rattle.std.specs.Prelude.{◌≡◌, List, length};
    ghost use Rattle.sut_classes.specs.ClassLists.{IndustryClass};
    ghost use Rattle.sut_classes.specs.ClassView.{industries_of};

    ghost Value = { List IndustryClass };

    ghost view = { λ c. industries_of c.names c.groups.items };

    ghost invariant = { λ c. length c.names ≡ length c.groups.items };
}

impl IndustryList {
    /// No industries.
    pub fn new(alloc: Global) -> IndustryList
        ensures { result ≡ [] }
    {
        IndustryList {
            names: Codes::new(alloc),
            groups: Vec::new(alloc),
        }
    }

    /// The codes of the industries.
    pub fn codes(&self) -> &Codes
        ensures { result.now ≡ map (λ j. j.code) self.now }
    {
        &self.names
    }

    /// The group of the industry at a place, if it is in one; none where the place isn't there.
    pub fn group(&self, place: u16) -> Option<Option<IndustryGroupId>>
        ensures { result ≡ option_map (λ j. j.group) (slice_get self.now place) }
    {
        item_at(&self.groups, place)
    }

    /// Adds an industry at the end. After want of memory the industries are as before.
    pub fn push(&mut self, code: Vec<u8>, group: Option<IndustryGroupId>) -> Result<(), AllocError>
        requires absent { position (bytes_eq code.items) (map (λ j. j.code) self.old) ≡ None }
        requires room { length self.old < 512 }
        ensures ok { OnOk result (self.new ≡ self.old ++ record { code = code.items; group = group } ∷ []) }
        ensures err { OnErr result (self.new ≡ self.old) }
    {
        if self.groups.push(group).is_err() {
            return Err(AllocError);
        }
        if self.names.push(code).is_err() {
            self.groups.pop();
            return Err(AllocError);
        }
        Ok(())
    }

    /// The same industries, under the same allocator.
    pub fn copy(&self) -> Result<IndustryList, NoMemory>
        ensures { IfOk result (λ c. c ≡ self.now) }
    {
        let alloc = *self.groups.allocator();
        let groups = Vec::from_slice(alloc, &self.groups)?;
        let names = self.names.copy()?;
        Ok(IndustryList { names, groups })
    }
}
