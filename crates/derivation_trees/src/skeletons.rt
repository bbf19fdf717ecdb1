// Skeletons: what a derivation keeps once its values are left out.
ghost use Rattle.std.specs.Prelude.{◌≡◌, IfOk, OnOk, ◌++◌};
ghost use Rattle.derivation_trees.specs.Codes.{skeleton_code};

use lists::{Copied, List};
use std::alloc::Global;
use wiki_base::{Memory, WordId};

/// Words, one for each preterminal of a rule, in the order of its body.
pub type Words = List<WordId>;

/// Skeletons, in the order of the categories that they stand for.
pub type Skeletons = List<Skeleton>;

/// A node of a derivation without its values: the number of its rule, from 1, the places at which it starts and ends (each
/// the number of tokens before it), the position of the referent that each `<` of the rule has found, the word of each
/// preterminal of the rule, and the skeletons of its children.
#[derive(Drop)]
pub struct Skeleton {
    pub rule: u16,
    pub start: u16,
    pub end: u16,
    pub found: List<u16>,
    pub words: Words,
    pub children: Skeletons,
}

impl Copied for Skeleton {
    fn copy(&self) -> Result<Skeleton, Memory> {
        let mut children = List::new(self.children.allocator());
        for child in self.children.as_slice() {
            children.push(child.copy()?)?;
        }
        let found = self.found.copy()?;
        let words = copy_words(&self.words)?;
        Ok(Skeleton {
            rule: self.rule,
            start: self.start,
            end: self.end,
            found,
            words,
            children,
        })
    }
}

fn copy_words(words: &Words) -> Result<Words, Memory>
    ensures { IfOk result (λ copied. copied ≡ words.now) }
{
    let mut copied = List::new(words.allocator());
    for word in words.as_slice() {
        copied.push(*word)?;
    }
    Ok(copied)
}

impl Skeleton {
    /// The code: the number of the rule, the found positions from left to right, and then the codes of the children from
    /// left to right.
    pub fn code(&self, alloc: Global) -> Result<List<u16>, Memory>
        ensures { IfOk result (λ code. code ≡ skeleton_code self.now) }
    {
        let mut code = List::new(alloc);
        self.push_code(&mut code)?;
        Ok(code)
    }

    // Adds the code at the end.
    fn push_code(&self, code: &mut List<u16>) -> Result<(), Memory>
        ensures { OnOk result (code.new ≡ code.old ++ skeleton_code self.now) }
    {
        code.push(self.rule)?;
        for pos in self.found.as_slice() {
            code.push(*pos)?;
        }
        for child in self.children.as_slice() {
            child.push_code(code)?;
        }
        Ok(())
    }
}
