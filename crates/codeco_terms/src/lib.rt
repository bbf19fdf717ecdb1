//! The terms of a grammar: values, categories with features, patterns, the elements of a rule, rules and
//! grammars (after the Codeco notation of T. Kuhn, Controlled English for Knowledge Representation, 2010).
#![tactic(auto)]

mod categories;
mod declarations;
mod elements;
mod environment;
mod feature_lists;
mod grammar;
mod rules;
mod symbols;
mod unification;
mod values;

pub use categories::{Category, Ground, Pattern, Patterns};
pub use declarations::{AtomNumbers, Declared, Feature, Features};
pub use elements::{Element, Elements};
pub use environment::{Env, MOST_VARIABLES};
pub use feature_lists::{Feats, MOST_VALUES, Takes, Vals};
pub use grammar::Grammar;
pub use rules::{Label, Rule, Rules};
pub use symbols::{Symbol, Symbols};
pub use unification::unify;
pub use values::{Term, Value};
