// What the kept model says of its elements.
use crate::rules::Rules;
use crate::terms::{Form, Way};
use logic_terms::Role;
use wiki_base::WordId;

// How deep a class is looked into.
const MOST_DEPTH: usize = 8;

impl Way {
    fn role(self) -> Role {
        Role {
            id: WordId(self.word),
            inverted: self.inverted,
        }
    }
}

impl Rules {
    // The pairs of an element with its successors by a role.
    pub(crate) fn successors(&self, way: Way, element: u64) -> &[(u64, u64)] {
        match &self.model {
            Some(model) => model.successors(way.role(), element),
            None => &[],
        }
    }

    pub(crate) fn are_related(&self, way: Way, from: u64, to: u64) -> bool {
        match &self.model {
            Some(model) => model.relates(way.role(), from, to),
            None => false,
        }
    }

    // The element of a name.
    pub(crate) fn element(&self, name: u32) -> Option<u64> {
        match &self.model {
            Some(model) => Some(model.element(WordId(name))),
            None => None,
        }
    }

    // Whether an element is in a class, as far as that was looked into.
    pub(crate) fn is_in(&self, number: usize, element: u64) -> bool {
        self.is_within(number, element, MOST_DEPTH)
    }

    #[cycle(within)]
    fn is_within(&self, number: usize, element: u64, depth: usize) -> bool {
        if depth == 0 {
            return false;
        }
        match self.terms.form(number) {
            Form::Thing => true,
            Form::Named(word) => self.is_named(word, element),
            Form::Marker(inner) => self.is_within(inner, element, depth - 1),
            Form::Not(inner) => !self.is_within(inner, element, depth - 1),
            Form::And(_) => !self.has_part(number, element, depth - 1, false),
            Form::Or(_) => self.has_part(number, element, depth - 1, true),
            Form::Some(way, inner) => self.has_successor(way, inner, element, depth - 1, true),
            Form::All(way, inner) => !self.has_successor(way, inner, element, depth - 1, false),
            Form::Value(way, name) => match self.element(name) {
                Some(to) => self.are_related(way, element, to),
                None => false,
            },
        }
    }

    fn is_named(&self, word: u32, element: u64) -> bool {
        match &self.model {
            Some(model) => model.has_element(WordId(word), element),
            None => false,
        }
    }

    // Whether an element is in a part of a class, or is not in one.
    #[cycle(within)]
    fn has_part(&self, number: usize, element: u64, depth: usize, is_wanted: bool) -> bool {
        for part in self.terms.parts(number) {
            if self.is_within(*part, element, depth) == is_wanted {
                return true;
            }
        }
        false
    }

    // Whether a successor of an element is in a class, or is not in it.
    #[cycle(within)]
    fn has_successor(
        &self,
        way: Way,
        inner: usize,
        element: u64,
        depth: usize,
        is_wanted: bool,
    ) -> bool {
        for pair in self.successors(way, element) {
            if self.is_within(inner, pair.1, depth) == is_wanted {
                return true;
            }
        }
        false
    }
}
