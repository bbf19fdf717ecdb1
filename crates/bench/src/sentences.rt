// The axioms of sentences that are drawn by a rule.

use crate::fault::Fault;
use logic_terms::{Axiom, Axioms, Class, Role};
use std::alloc::Global;
use wiki_base::WordId;

pub(crate) const NOUNS: u32 = 20;

pub(crate) const NAMES: u32 = 20;

pub(crate) const VERBS: u32 = 10;

// Which words the nouns and the names begin with; the verbs stand behind both.
#[derive(Clone, Copy)]
pub(crate) struct Words {
    pub(crate) first_noun: u32,
    pub(crate) first_name: u32,
}

impl Words {
    pub(crate) fn noun(self, number: u32) -> WordId {
        WordId(self.first_noun.saturating_add(number % NOUNS))
    }

    pub(crate) fn name(self, number: u32) -> WordId {
        WordId(self.first_name.saturating_add(number % NAMES))
    }
}

pub(crate) fn verb(number: u32) -> WordId {
    WordId(1 + NOUNS + NAMES + number % VERBS)
}

// The next draw of the rule.
pub(crate) fn drawn(state: u32) -> u32 {
    ((u64::from(state) * 75 + 74) % 65_537) as u32
}

// The axiom of the sentence with a number, if it has one: every fifth is a question.
fn axiom(
    alloc: Global,
    words: Words,
    number: u32,
    draws: [u32; 3],
) -> Result<Option<Axiom>, Fault> {
    let [first, second, third] = draws;
    let role = Role {
        id: verb(second),
        inverted: false,
    };
    let drawn = match number % 5 {
        0 => Some(Axiom::Related(role, words.name(first), words.name(third))),
        1 => {
            let below = first % (NOUNS - 1);
            let above = below + 1 + second % (NOUNS - 1 - below);
            let (below, above) = (words.noun(below), words.noun(above));
            Some(Axiom::SubClass(Class::Named(below), Class::Named(above)))
        }
        2 => Some(Axiom::Member(Class::Named(words.noun(second)), words.name(first))),
        3 => {
            let only = Box::new(alloc, Class::Named(words.noun(third)))?;
            let below = Class::Named(words.noun(first));
            Some(Axiom::SubClass(below, Class::All(role, only)))
        }
        _ => None,
    };
    Ok(drawn)
}

// The axioms of so many sentences.
pub(crate) fn axioms(
    alloc: Global,
    words: Words,
    sentences: u32,
    seed: u32,
) -> Result<Axioms, Fault> {
    let mut made = Axioms::new(alloc);
    let mut state = seed;
    for number in 0..sentences {
        let first = drawn(state);
        let second = drawn(first);
        let third = drawn(second);
        state = third;
        if let Some(drawn) = axiom(alloc, words, number, [first, second, third])? {
            made.push(drawn)?;
        }
    }
    Ok(made)
}
