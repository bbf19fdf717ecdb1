// Categories and patterns in numbers.
ghost use Rattle.std.specs.Prelude.{◌≡◌, ◌<◌, ◌++◌, ◌∷◌, [], length, map, IfOk, OnOk};
ghost use Rattle.codeco_numbering.specs.Numbered.{ordered, plain_feats, taken_feats, numbered_category, numbered_preterminal, numbered_pattern};
ghost use Rattle.codeco_checked.specs.declared.numbers.TheConstants.{NUMBERS};

use crate::names::{Names, kind_number};
use crate::tables::Tables;
use codeco_terms::{Category, Feats, Pattern, Takes};
use codeco_text::{WrittenCategory, WrittenTerm};
use std::alloc::Global;
use wiki_base::Memory;

/// The features that a category writes, in order of number; those of one number as they are written.
pub fn ordered<'a>(
    alloc: Global,
    features: &Names,
    category: &'a WrittenCategory,
) -> Result<Vec<(u16, &'a WrittenTerm)>, Memory>
    requires { length features.now < NUMBERS }
    ensures { IfOk result (λ list. map (λ f. (f.0, f.1.now)) list.items ≡ ordered features.now category.now) }
{
    let mut list = Vec::with_capacity(alloc, category.feats.len())?;
    for feat in category.feats.as_slice() {
        let number = features.number_of(feat.name.as_bytes()) as u16;
        list.push((number, &feat.term))?;
    }
    list.sort_by_key(|feat| feat.0)?;
    Ok(list)
}

impl<'a> Tables<'a> {
    /// Adds a feature, if it isn't marked.
    fn add_plain(&self, feats: &mut Feats, feature: u16, term: &WrittenTerm) -> Result<(), Memory>
        ensures { OnOk result (feats.new ≡ feats.old ++ plain_feats self.now ((feature, term.now) ∷ [])) }
    {
        match term {
            WrittenTerm::Atom(_) => feats.push((feature, self.term(term))),
            WrittenTerm::Variable(_) => feats.push((feature, self.term(term))),
            WrittenTerm::Taken(_) => Ok(()),
        }
    }

    /// Adds a feature, if it is marked.
    fn add_taken(&self, takes: &mut Takes, feature: u16, term: &WrittenTerm) -> Result<(), Memory>
        ensures { OnOk result (takes.new ≡ takes.old ++ taken_feats self.now ((feature, term.now) ∷ [])) }
    {
        match term {
            WrittenTerm::Atom(_) => Ok(()),
            WrittenTerm::Variable(_) => Ok(()),
            WrittenTerm::Taken(name) => takes.push((feature, self.variable(name))),
        }
    }

    fn plain_feats(&self, alloc: Global, list: &[(u16, &WrittenTerm)]) -> Result<Feats, Memory>
        ensures { IfOk result (λ feats. feats ≡ plain_feats self.now (map (λ f. (f.0, f.1.now)) list.now)) }
    {
        let mut feats = Feats::new(alloc);
        for (feature, term) in list {
            self.add_plain(&mut feats, *feature, term)?;
        }
        Ok(feats)
    }

    fn taken_feats(&self, alloc: Global, list: &[(u16, &WrittenTerm)]) -> Result<Takes, Memory>
        ensures { IfOk result (λ takes. takes ≡ taken_feats self.now (map (λ f. (f.0, f.1.now)) list.now)) }
    {
        let mut takes = Takes::new(alloc);
        for (feature, term) in list {
            self.add_taken(&mut takes, *feature, term)?;
        }
        Ok(takes)
    }

    /// A category in numbers.
    pub fn category(&self, alloc: Global, category: &WrittenCategory) -> Result<Category, Memory>
        ensures { IfOk result (λ numbered. numbered ≡ numbered_category self.now category.now) }
    {
        let list = ordered(alloc, &self.grammar.features, category)?;
        Ok(Category {
            name: self.category_name(&category.name),
            feats: self.plain_feats(alloc, list.as_slice())?,
        })
    }

    /// A preterminal in numbers.
    pub fn preterminal(&self, alloc: Global, category: &WrittenCategory) -> Result<Category, Memory>
        ensures { IfOk result (λ numbered. numbered ≡ numbered_preterminal self.now category.now) }
    {
        let list = ordered(alloc, &self.grammar.features, category)?;
        Ok(Category {
            name: kind_number(category.name.as_bytes()),
            feats: self.plain_feats(alloc, list.as_slice())?,
        })
    }

    /// A pattern in numbers.
    pub fn pattern(&self, alloc: Global, category: &WrittenCategory) -> Result<Pattern, Memory>
        ensures { IfOk result (λ numbered. numbered ≡ numbered_pattern self.now category.now) }
    {
        let list = ordered(alloc, &self.grammar.features, category)?;
        let cat = Category {
            name: self.category_name(&category.name),
            feats: self.plain_feats(alloc, list.as_slice())?,
        };
        let taken = self.taken_feats(alloc, list.as_slice())?;
        Ok(Pattern { cat, taken })
    }
}
