// What a text of the notation spells, with its names as bytes.

use codeco_terms::{Symbol, Symbols};
use wiki_base::{List, Memory};

/// What is written for a feature: an atom, a variable, or a variable that is marked by `?`.
#[derive(Drop)]
pub enum WrittenTerm {
    Atom(Symbol),
    Variable(Symbol),
    Taken(Symbol),
}

/// A feature with what is written for it.
#[derive(Drop)]
pub struct WrittenFeat {
    pub name: Symbol,
    pub term: WrittenTerm,
}

/// The features of a category, as written.
pub type WrittenFeats = List<WrittenFeat>;

/// A category with the features that are written.
#[derive(Drop)]
pub struct WrittenCategory {
    pub name: Symbol,
    pub feats: WrittenFeats,
}

/// The patterns of a reference, as written.
pub type WrittenCategories = List<WrittenCategory>;

/// An element of a rule's body.
#[derive(Drop)]
pub enum WrittenElement {
    /// `[t]`
    Terminal(Symbol),
    /// `$c`
    Preterminal(WrittenCategory),
    /// `c`
    Sub(WrittenCategory),
    /// `#X`
    Position(Symbol),
    /// `//`
    Opener,
    /// `> c`
    Forward(WrittenCategory),
    /// `>> c`
    Strong(WrittenCategory),
    /// `< +p .. -p ..`, the positive and the negative patterns
    Back(WrittenCategories, WrittenCategories),
    /// `/< +p ..`
    NoBack(WrittenCategories),
}

/// The elements of a rule's body, in order.
pub type WrittenElements = List<WrittenElement>;

/// A rule: a label or none, the head, whether it closes its scope, and the body.
#[derive(Drop)]
pub struct WrittenRule {
    pub label: Option<Symbol>,
    pub head: WrittenCategory,
    pub closing: bool,
    pub body: WrittenElements,
}

/// The values that a feature is declared with.
#[derive(Drop)]
pub enum Domain {
    Words,
    Positions,
    Atoms(Symbols),
}

/// A declaration of a feature, or a rule.
#[derive(Drop)]
pub enum WrittenItem {
    Feature(Symbol, Domain),
    Rule(WrittenRule),
}

/// The declarations and rules of a text, in order.
pub type WrittenItems = List<WrittenItem>;
