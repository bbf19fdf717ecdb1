// What of a rule's body matters to its label.
ghost use Rattle.std.specs.Prelude.{◌≡◌, ◌<◌, ◌≤◌, false, slice_index_or, IsTrue};
ghost use Rattle.std.specs.List.{list_all};
ghost use Rattle.codeco_labels.specs.Shapes as shapes;
ghost use Rattle.codeco_checked.specs.declared.numbers.TheConstants.{FIRST_PLAIN, NUMBERS};

use crate::found::{Found, Times};
use codeco_checked::{FIRST_PLAIN, LabelRow, Words};
use codeco_terms::{Element, Rule};

/// What a body has.
#[derive(Clone, Copy)]
pub(crate) struct Shape {
    /// The children that are no marks.
    pub children: Found,
    /// The preterminals.
    pub words: Found,
    pub introduced: Times,
    pub referred: Times,
    /// Each referent is introduced right behind a terminal or a preterminal.
    pub behind_tokens: bool,
    /// The body ends with a terminal or a preterminal, where `#` and `//` are passed over.
    pub after_token: bool,
    /// A child that is no mark stands behind a preterminal.
    pub child_behind_word: bool,
}

impl Shape {
    const fn empty() -> Shape
        ensures { result ≡ shapes.empty_shape }
    {
        Shape {
            children: Found::No,
            words: Found::No,
            introduced: Times::Never,
            referred: Times::Never,
            behind_tokens: true,
            after_token: false,
            child_behind_word: false,
        }
    }

    /// What a body has, where these categories are marks.
    pub(crate) fn of(marks: &[bool], body: &[Element]) -> Shape
        ensures { result ≡ shapes.shape_of marks.now body.now }
    {
        let mut shape = Shape::empty();
        for element in body {
            shape = shape.with(marks, element);
        }
        shape
    }

    // The body with one more element.
    fn with(self, marks: &[bool], element: &Element) -> Shape
        ensures { result ≡ shapes.with_element marks.now self element.now }
    {
        match element {
            Element::Terminal(_) => Shape {
                after_token: true,
                ..self
            },
            Element::Preterminal(category) => Shape {
                words: self.words.and(category.name),
                after_token: true,
                ..self
            },
            Element::Sub(category) => self.with_child(is_mark(marks, category.name), category.name),
            Element::Position(_) | Element::Opener => self,
            Element::Forward(_) | Element::Strong(_) => Shape {
                introduced: self.introduced.more(),
                behind_tokens: self.behind_tokens && self.after_token,
                after_token: false,
                ..self
            },
            Element::Back(_, _) => Shape {
                referred: self.referred.more(),
                after_token: false,
                ..self
            },
            Element::NoBack(_) => Shape {
                after_token: false,
                ..self
            },
        }
    }

    // The body with one more child.
    fn with_child(self, is_mark: bool, name: u16) -> Shape
        ensures { result ≡ shapes.with_child is_mark self name }
    {
        if is_mark {
            return Shape {
                after_token: false,
                ..self
            };
        }
        Shape {
            children: self.children.and(name),
            after_token: false,
            child_behind_word: self.child_behind_word || !self.words.is_no(),
            ..self
        }
    }

    fn has_words(&self, words: Words) -> bool
        ensures { result ≡ shapes.has_words words self.now }
    {
        match words {
            Words::No => self.words.is_no(),
            Words::Name => self.words.is_one(0),
            Words::Noun => self.words.is_one(1),
            Words::Of => self.words.is_one(2),
            Words::Verb => self.words.is_one(3),
            Words::Relation => {
                self.words.is_one(3) || self.words.is_one(4) || self.words.is_one(2)
            }
            Words::VerbThenNoun => self.words.are_two(3, 1),
            Words::VerbBehind => self.words.is_one(3) && !self.child_behind_word,
            Words::Any => true,
        }
    }

    /// Whether the body has all that a row asks for but the kinds of the children.
    pub(crate) fn fits(&self, row: &LabelRow) -> bool
        ensures { result ≡ shapes.has_shape row.now self.now }
    {
        self.has_words(row.words)
            && self.introduced.is(row.introduces)
            && self.referred.is(row.refers)
            && self.behind_tokens
    }
}

fn is_mark(marks: &[bool], name: u16) -> bool
    ensures { result ≡ slice_index_or marks.now name false }
{
    match marks.get(name as usize) {
        Some(mark) => *mark,
        None => false,
    }
}

// A number above the element's name, where it is a child, and at least this one.
fn above_element(element: &Element, least: usize) -> usize
    requires { least ≤ NUMBERS }
    ensures most { result ≤ NUMBERS }
    ensures least { least ≤ result }
    ensures below { IsTrue (shapes.element_below result element.now) }
{
    match element {
        Element::Sub(category) => least.max(category.name as usize + 1),
        _ => least,
    }
}

// A number above the names of the rule's head and children, and at least this one.
fn above_rule(rule: &Rule, least: usize) -> usize
    requires { least ≤ NUMBERS }
    ensures most { result ≤ NUMBERS }
    ensures least { least ≤ result }
    ensures below { IsTrue (shapes.names_below result rule.now) }
{
    let mut above = least.max(rule.head.name as usize + 1);
    for element in rule.body.as_slice() {
        above = above_element(element, above);
    }
    above
}

/// A number above the names of all heads and children, and above that of `text`.
pub(crate) fn above_rules(rules: &[Rule]) -> usize
    ensures most { result ≤ NUMBERS }
    ensures least { FIRST_PLAIN < result }
    ensures below { IsTrue (list_all (shapes.names_below result) rules.now) }
{
    let mut above = FIRST_PLAIN as usize + 1;
    for rule in rules {
        above = above_rule(rule, above);
    }
    above
}
