// The elements of a rule's body.

use crate::{Category, Patterns};
use wiki_base::{Copied, List, Memory};

/// An element of a rule's body.
#[derive(Drop)]
pub enum Element {
    /// `[t]`, a terminal by its number.
    Terminal(u16),
    /// `$c`, a word of a kind.
    Preterminal(Category),
    /// `c`, a category whose phrase stands here.
    Sub(Category),
    /// `#X`: the variable is the present position.
    Position(u8),
    /// `//`, which opens a scope.
    Opener,
    /// `> c`, which introduces a weak referent.
    Forward(Category),
    /// `>> c`, which introduces a strong referent.
    Strong(Category),
    /// `< +p .. -p ..`, a backward reference with its positive and negative patterns.
    Back(Patterns, Patterns),
    /// `/< +p ..`, which holds where no referent agrees with a pattern.
    NoBack(Patterns),
}

impl Copied for Element {
    fn copy(&self) -> Result<Self, Memory> {
        match self {
            Element::Terminal(terminal) => Ok(Element::Terminal(*terminal)),
            Element::Preterminal(category) => Ok(Element::Preterminal(category.copy()?)),
            Element::Sub(category) => Ok(Element::Sub(category.copy()?)),
            Element::Position(variable) => Ok(Element::Position(*variable)),
            Element::Opener => Ok(Element::Opener),
            Element::Forward(category) => Ok(Element::Forward(category.copy()?)),
            Element::Strong(category) => Ok(Element::Strong(category.copy()?)),
            Element::Back(positive, negative) => {
                Ok(Element::Back(positive.copy()?, negative.copy()?))
            }
            Element::NoBack(patterns) => Ok(Element::NoBack(patterns.copy()?)),
        }
    }
}

/// The elements of a rule's body, in order.
pub type Elements = List<Element>;
