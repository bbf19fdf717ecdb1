// Grammars in which no fault holds.
ghost use Rattle.std.specs.Prelude.{◌≡◌, ◌↔◌, IsTrue, IfOk};

use codeco_terms::Grammar;
use std::marker::Model;
use wiki_base::{Copied, Memory};

/// A grammar of the notation, with the numbers that the notation gives, in which no fault holds.
#[derive(Drop)]
pub struct CheckedGrammar {
    grammar: Grammar,
}

impl Model for CheckedGrammar {
    ghost use Rattle.codeco_terms.specs.GrammarParts.{GrammarParts};
    ghost use Rattle.codeco_checked.specs.Sound.{IsSound};

    ghost Value = { GrammarParts };

    ghost view = { λ a. a.grammar };

    ghost invariant = { λ a. IsSound a.grammar };
}

impl CheckedGrammar {
    ghost use Rattle.codeco_checked.specs.Sound.{IsSound, is_labelled};

    /// Admits a grammar of which it is known that it may be used. Takes no memory.
    pub fn admit(grammar: Grammar) -> CheckedGrammar
        requires { IsSound grammar }
        ensures { result ≡ grammar }
    {
        CheckedGrammar { grammar }
    }

    /// The grammar.
    pub fn grammar(&self) -> &Grammar
        ensures grammar { result.now ≡ self.now }
        ensures sound { IsSound self.now }
    {
        &self.grammar
    }

    /// Whether every rule has a label.
    pub fn is_labelled(&self) -> bool
        ensures { result ≡ is_labelled self.now }
    {
        self.grammar
            .rules()
            .as_slice()
            .iter()
            .all(|rule| rule.label.is_some())
    }

    /// An equal grammar.
    pub fn copy(&self) -> Result<CheckedGrammar, Memory>
        ensures { IfOk result (λ copied. copied ≡ self.now) }
    {
        Ok(CheckedGrammar {
            grammar: self.grammar.copy()?,
        })
    }
}
