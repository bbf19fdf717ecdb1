// The features of a text, by their declarations and by what rules write.
ghost use Rattle.std.specs.Prelude.{◌≡◌, true, false, [], ◌∷◌, ◌++◌, map, flat_map, IfOk};
ghost use Rattle.codeco_text.specs.Names.{is_among};
ghost use Rattle.codeco_checked.specs.Numbering.{differ, first_features};
ghost use Rattle.codeco_numbering.specs.Numbered.{
  undeclared,
  with_declaration,
  with_item,
  with_items,
  with_undeclared,
  category_features,
  element_categories,
  written_features,
  item_rules,
  rules_of,
  all_features,
};

use crate::names::Names;
use codeco_text::{
    Domain, WrittenCategories, WrittenCategory, WrittenElement, WrittenItem, WrittenItems,
    WrittenRule,
};
use std::alloc::Global;
use std::marker::Model;
use wiki_base::Memory;

/// A feature's name, and what it is declared with, if it is.
#[derive(Drop)]
pub struct NamedFeature<'a> {
    pub name: &'a [u8],
    pub domain: Option<&'a Domain>,
}

impl<'a> Model for NamedFeature<'a> {
    ghost use Rattle.std.specs.Option.{option_map};
    ghost use Rattle.codeco_numbering.specs.Numbered.{NamedFeature as Named};

    ghost Value = { Named };

    ghost view = { λ a. record { name = a.name.now; domain = option_map (λ d. d.now) a.domain } };
}

/// The features in order of number, with a table of their names.
#[derive(Drop)]
pub struct FeatureTable<'a> {
    pub names: Names,
    pub list: Vec<NamedFeature<'a>>,
}

impl<'a> Model for FeatureTable<'a> {
    ghost use Rattle.std.specs.Prelude.{◌≡◌, List, map};
    ghost use Rattle.codeco_numbering.specs.Numbered.{NamedFeature as Named};

    ghost Value = { List Named };

    ghost view = { λ a. a.list.items };

    ghost invariant = { λ a. a.names ≡ map (λ f. f.name) a.list.items };
}

impl<'a> FeatureTable<'a> {
    /// Adds a feature whose name is new.
    fn with(self, alloc: Global, feature: NamedFeature<'a>) -> Result<FeatureTable<'a>, Memory>
        requires { is_among (map (λ f. f.name) self) feature.name ≡ false }
        ensures { IfOk result (λ table. table ≡ self.entry ++ feature.entry ∷ []) }
    {
        let FeatureTable {
            mut names,
            mut list,
        } = self;
        names.add(alloc, feature.name)?;
        list.push(feature)?;
        Ok(FeatureTable { names, list })
    }

    /// The names, in order of number.
    pub fn into_names(self) -> Names
        ensures { result ≡ map (λ f. f.name) self.entry }
    {
        self.names
    }

    /// Whether there is a feature of this name.
    fn has(&self, name: &[u8]) -> bool
        ensures { result ≡ is_among (map (λ f. f.name) self.now) name.now }
    {
        self.names.number_of(name) < self.list.len()
    }

    /// Declares a feature.
    fn declare(
        self,
        alloc: Global,
        name: &'a [u8],
        domain: &'a Domain,
    ) -> Result<FeatureTable<'a>, Memory>
        requires { differ (map (λ f. f.name) (with_declaration self name.now domain.now)) ≡ true }
        ensures { IfOk result (λ table. table ≡ with_declaration self.entry name.now domain.now) }
    {
        let FeatureTable { names, mut list } = self;
        let place = names.number_of(name);
        let feature = NamedFeature {
            name,
            domain: Some(domain),
        };
        if place < list.len() {
            list[place] = feature;
            Ok(FeatureTable { names, list })
        } else {
            FeatureTable { names, list }.with(alloc, feature)
        }
    }

    /// Notes a feature that a rule writes.
    fn note(self, alloc: Global, name: &'a [u8]) -> Result<FeatureTable<'a>, Memory>
        ensures { IfOk result (λ table. table ≡ with_undeclared self.entry (name.now ∷ [])) }
    {
        if self.has(name) {
            Ok(self)
        } else {
            let feature = NamedFeature { name, domain: None };
            self.with(alloc, feature)
        }
    }

    fn declare_item(self, alloc: Global, item: &'a WrittenItem) -> Result<FeatureTable<'a>, Memory>
        requires { differ (map (λ f. f.name) (with_item self item.now)) ≡ true }
        ensures { IfOk result (λ table. table ≡ with_item self.entry item.now) }
    {
        match item {
            WrittenItem::Feature(name, domain) => self.declare(alloc, name.as_bytes(), domain),
            WrittenItem::Rule(_) => Ok(self),
        }
    }

    /// Declares the features of a text.
    fn declare_items(
        self,
        alloc: Global,
        items: &'a WrittenItems,
    ) -> Result<FeatureTable<'a>, Memory>
        requires { differ (map (λ f. f.name) (with_items self items.now)) ≡ true }
        ensures { IfOk result (λ table. table ≡ with_items self.entry items.now) }
    {
        let mut table = self;
        for item in items.as_slice() {
            table = table.declare_item(alloc, item)?;
        }
        Ok(table)
    }

    fn note_category(
        self,
        alloc: Global,
        category: &'a WrittenCategory,
    ) -> Result<FeatureTable<'a>, Memory>
        ensures { IfOk result (λ table. table ≡ with_undeclared self.entry (category_features category.now)) }
    {
        let mut table = self;
        for feat in category.feats.as_slice() {
            table = table.note(alloc, feat.name.as_bytes())?;
        }
        Ok(table)
    }

    fn note_categories(
        self,
        alloc: Global,
        categories: &'a WrittenCategories,
    ) -> Result<FeatureTable<'a>, Memory>
        ensures { IfOk result (λ table. table ≡ with_undeclared self.entry (flat_map category_features categories.now)) }
    {
        let mut table = self;
        for category in categories.as_slice() {
            table = table.note_category(alloc, category)?;
        }
        Ok(table)
    }

    fn note_element(
        self,
        alloc: Global,
        element: &'a WrittenElement,
    ) -> Result<FeatureTable<'a>, Memory>
        ensures { IfOk result (λ table. table ≡ with_undeclared self.entry (flat_map category_features (element_categories element.now))) }
    {
        match element {
            WrittenElement::Terminal(_) => Ok(self),
            WrittenElement::Preterminal(category) => self.note_category(alloc, category),
            WrittenElement::Sub(category) => self.note_category(alloc, category),
            WrittenElement::Position(_) => Ok(self),
            WrittenElement::Opener => Ok(self),
            WrittenElement::Forward(category) => self.note_category(alloc, category),
            WrittenElement::Strong(category) => self.note_category(alloc, category),
            WrittenElement::Back(positives, negatives) => {
                let table = self.note_categories(alloc, positives)?;
                table.note_categories(alloc, negatives)
            }
            WrittenElement::NoBack(patterns) => self.note_categories(alloc, patterns),
        }
    }

    fn note_rule(self, alloc: Global, rule: &'a WrittenRule) -> Result<FeatureTable<'a>, Memory>
        ensures { IfOk result (λ table. table ≡ with_undeclared self.entry (written_features rule.now)) }
    {
        let mut table = self.note_category(alloc, &rule.head)?;
        for element in rule.body.as_slice() {
            table = table.note_element(alloc, element)?;
        }
        Ok(table)
    }

    fn note_item(self, alloc: Global, item: &'a WrittenItem) -> Result<FeatureTable<'a>, Memory>
        ensures { IfOk result (λ table. table ≡ with_undeclared self.entry (flat_map written_features (item_rules item.now))) }
    {
        match item {
            WrittenItem::Feature(_, _) => Ok(self),
            WrittenItem::Rule(rule) => self.note_rule(alloc, rule),
        }
    }

    /// Notes the features that the rules of a text write.
    fn note_items(self, alloc: Global, items: &'a WrittenItems) -> Result<FeatureTable<'a>, Memory>
        ensures { IfOk result (λ table. table ≡ with_undeclared self.entry (flat_map written_features (rules_of items.now))) }
    {
        let mut table = self;
        for item in items.as_slice() {
            table = table.note_item(alloc, item)?;
        }
        Ok(table)
    }
}

/// The four features that every grammar has.
fn first_features<'a>(alloc: Global) -> Result<FeatureTable<'a>, Memory>
    ensures { IfOk result (λ table. table ≡ map undeclared first_features) }
{
    let table = FeatureTable {
        names: Names::new(alloc),
        list: Vec::new(alloc),
    };
    let table = table.note(alloc, b"num")?;
    let table = table.note(alloc, b"vow")?;
    let table = table.note(alloc, b"form")?;
    table.note(alloc, b"w")
}

/// The features of a text.
pub fn all_features(alloc: Global, items: &WrittenItems) -> Result<FeatureTable<'_>, Memory>
    requires { differ (map (λ f. f.name) (with_items (map undeclared first_features) items.now)) ≡ true }
    ensures { IfOk result (λ table. table ≡ all_features items.now) }
{
    let table = first_features(alloc)?.declare_items(alloc, items)?;
    table.note_items(alloc, items)
}
