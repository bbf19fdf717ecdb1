// The tables by which a rule is numbered.
ghost use Rattle.std.specs.Prelude.{◌≡◌, ◌+◌};
ghost use Rattle.codeco_numbering.specs.Numbered.{number_of, numbered_term};
ghost use Rattle.codeco_checked.specs.declared.numbers.TheConstants.{FIRST_PLAIN};

use crate::names::Names;
use codeco_checked::FIRST_PLAIN;
use codeco_terms::{Symbol, Term, Value};
use codeco_text::WrittenTerm;
use std::marker::Model;

/// The names that rules write, by their numbers.
#[derive(Drop)]
pub struct GrammarTables {
    pub features: Names,
    pub atoms: Names,
    pub terminals: Names,
    pub categories: Names,
}

/// The tables by which a rule is numbered: those of the grammar, and the variables of the rule.
#[derive(Drop)]
pub struct Tables<'a> {
    pub grammar: &'a GrammarTables,
    pub variables: Names,
}

impl<'a> Model for Tables<'a> {
    ghost use Rattle.codeco_numbering.specs.Numbered.{Tables as NameTables};
    ghost use Rattle.codeco_numbering.specs.Fitting.{HasRoom};

    ghost Value = { NameTables };

    ghost view = { λ a. record {
      features = a.grammar.now.features;
      atoms = a.grammar.now.atoms;
      terminals = a.grammar.now.terminals;
      categories = a.grammar.now.categories;
      variables = a.variables;
    } };

    ghost invariant = { λ a. HasRoom (record {
      features = a.grammar.now.features;
      atoms = a.grammar.now.atoms;
      terminals = a.grammar.now.terminals;
      categories = a.grammar.now.categories;
      variables = a.variables;
    }) };
}

impl<'a> Tables<'a> {
    /// The number of a terminal.
    pub fn terminal(&self, name: &Symbol) -> u16
        ensures { result ≡ number_of self.now.terminals name.now }
    {
        self.grammar.terminals.number_of(name.as_bytes()) as u16
    }

    /// The number of a category's name.
    pub fn category_name(&self, name: &Symbol) -> u16
        ensures { result ≡ FIRST_PLAIN + number_of self.now.categories name.now }
    {
        FIRST_PLAIN + self.grammar.categories.number_of(name.as_bytes()) as u16
    }

    /// The number of a variable.
    pub fn variable(&self, name: &Symbol) -> u8
        ensures { result ≡ number_of self.now.variables name.now }
    {
        self.variables.number_of(name.as_bytes()) as u8
    }

    /// What a term is in numbers.
    pub fn term(&self, term: &WrittenTerm) -> Term
        ensures { result ≡ numbered_term self.now term.now }
    {
        match term {
            WrittenTerm::Atom(name) => {
                Term::Val(Value::Atom(self.grammar.atoms.number_of(name.as_bytes()) as u16))
            }
            WrittenTerm::Variable(name) => Term::Var(self.variable(name)),
            WrittenTerm::Taken(name) => Term::Var(self.variable(name)),
        }
    }
}
