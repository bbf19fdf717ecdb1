// Grammars.
ghost use Rattle.std.specs.Prelude.{◌≡◌};

use crate::{Features, Rules, Symbols};
use std::marker::Model;
use wiki_base::{Copied, Memory};

/// A grammar: its features, its atoms, its terminals, the names of its categories and its rules. Each is a list in
/// order of number, from 0, but that the rule at place n has the number n + 1. An atom is what has its name, so
/// that features may share one.
#[derive(Drop)]
pub struct Grammar {
    features: Features,
    atoms: Symbols,
    terminals: Symbols,
    categories: Symbols,
    rules: Rules,
}

impl Model for Grammar {
    ghost use Rattle.codeco_terms.specs.GrammarParts.{GrammarParts};

    ghost Value = { GrammarParts };

    ghost view = { λ a. record {
      features = a.features;
      atoms = a.atoms;
      terminals = a.terminals;
      categories = a.categories;
      rules = a.rules;
    } };
}

impl Grammar {
    /// The grammar of these lists, which takes no memory.
    pub fn new(
        features: Features,
        atoms: Symbols,
        terminals: Symbols,
        categories: Symbols,
        rules: Rules,
    ) -> Self
        ensures features { result.features ≡ features }
        ensures atoms { result.atoms ≡ atoms }
        ensures terminals { result.terminals ≡ terminals }
        ensures categories { result.categories ≡ categories }
        ensures rules { result.rules ≡ rules }
    {
        Grammar {
            features,
            atoms,
            terminals,
            categories,
            rules,
        }
    }

    /// The features, in order of number.
    pub fn features(&self) -> &Features
        ensures { result.now ≡ self.now.features }
    {
        &self.features
    }

    /// The names of the atoms, in order of number.
    pub fn atoms(&self) -> &Symbols
        ensures { result.now ≡ self.now.atoms }
    {
        &self.atoms
    }

    /// The terminals, in order of number.
    pub fn terminals(&self) -> &Symbols
        ensures { result.now ≡ self.now.terminals }
    {
        &self.terminals
    }

    /// The names of the categories, in order of number.
    pub fn categories(&self) -> &Symbols
        ensures { result.now ≡ self.now.categories }
    {
        &self.categories
    }

    /// The rules. The one with number n, from 1, stands at place n - 1.
    pub fn rules(&self) -> &Rules
        ensures { result.now ≡ self.now.rules }
    {
        &self.rules
    }
}

impl Copied for Grammar {
    fn copy(&self) -> Result<Self, Memory> {
        Ok(Grammar {
            features: self.features.copy()?,
            atoms: self.atoms.copy()?,
            terminals: self.terminals.copy()?,
            categories: self.categories.copy()?,
            rules: self.rules.copy()?,
        })
    }
}
