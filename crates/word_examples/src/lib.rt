//! Tests of lists, texts and words, and how types are written with `List` and `Boxed`: plain ones, and a recursive one with
//! a definition that follows it.
#![tactic(auto)]

ghost use Rattle.std.specs.Prelude.{◌≡◌};
ghost use Rattle.word_examples.specs.Formula.{is_true};

use lists::{Boxed, Copied, List, Memory};

#[cfg(test)]
mod items;
#[cfg(test)]
mod live_words;
mod plain;
#[cfg(test)]
mod suggestions;
#[cfg(test)]
mod texts;

pub use plain::{Entries, Entry, add_word, copy_entries, sentence_count, words};

/// A formula over numbered letters.
#[derive(Drop)]
pub enum Formula {
    Letter(u16),
    Not(Boxed<Formula>),
    And(List<Formula>),
}

impl Copied for Formula {
    fn copy(&self) -> Result<Formula, Memory> {
        match self {
            Formula::Letter(letter) => Ok(Formula::Letter(*letter)),
            Formula::Not(inner) => {
                let copied = inner.get().copy()?;
                Ok(Formula::Not(Boxed::new(inner.allocator(), copied)?))
            }
            Formula::And(members) => {
                let mut copied = List::new(members.allocator());
                for member in members.as_slice() {
                    copied.push(member.copy()?)?;
                }
                Ok(Formula::And(copied))
            }
        }
    }
}

impl Formula {
    /// Whether the formula is true where the letters below a number are true.
    pub fn is_true(&self, bound: u16) -> bool
        ensures { result ≡ is_true bound self.now }
    {
        match self {
            Formula::Letter(letter) => *letter < bound,
            Formula::Not(inner) => !inner.get().is_true(bound),
            Formula::And(members) => {
                for member in members.as_slice() {
                    if !member.is_true(bound) {
                        return false;
                    }
                }
                true
            }
        }
    }
}

#[cfg(test)]
mod tests {
    use super::*;
    use std::alloc::Global;
    use std::test::Fail;

    fn one_and_not_five(alloc: Global) -> Result<Formula, Memory> {
        let mut members = List::new(alloc);
        members.push(Formula::Letter(1))?;
        members.push(Formula::Not(Boxed::new(alloc, Formula::Letter(5))?))?;
        Ok(Formula::And(members))
    }

    #[test]
    fn a_copy_is_true_where_the_formula_is(rt: HostRuntime) -> Result<(), Fail> {
        let copy = one_and_not_five(rt.alloc())?.copy()?;
        for (bound, want) in &[(2, true), (1, false), (6, false)] {
            assert!(rt; copy.is_true(*bound) == *want, "{bound}");
        }
        Ok(())
    }

    #[test]
    fn entries_are_added_counted_and_copied(rt: HostRuntime) -> Result<(), Fail> {
        let alloc = rt.alloc();
        let mut entries = List::new(alloc);
        add_word(alloc, &mut entries, 7)?;
        add_word(alloc, &mut entries, 8)?;
        let copy = copy_entries(&entries)?;
        assert!(rt; words(alloc, &copy)?.as_slice() == [7, 8].as_slice());
        Ok(())
    }
}
