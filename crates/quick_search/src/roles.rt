// Which roles are below which.
use logic_terms::{Knowledge, Role};
use std::alloc::Global;
use std::collections::{BTreeMap, BTreeSet};
use wiki_base::Memory;

// A role, and the number of its word where a hierarchy has it, and else 0.
#[derive(Clone, Copy, Debug, PartialEq, Eq)]
pub(crate) struct Way {
    role: Role,
    word: usize,
}

impl Way {
    pub(crate) fn inverse(self) -> Way {
        Way {
            role: self.role.inverse(),
            word: self.word,
        }
    }

    // A number that no other role of a hierarchy has.
    fn number(self) -> u64 {
        let word = (self.word as u64).saturating_mul(2);
        word.saturating_add(self.role.inverted as u64)
    }
}

// The words of a hierarchy by their numbers, from 1 on, and its pairs of roles, one below the other.
#[derive(Drop)]
pub(crate) struct Roles {
    words: BTreeMap<u32, usize>,
    pairs: BTreeSet<(u64, u64)>,
}

impl Roles {
    pub(crate) fn new(alloc: Global, k: &Knowledge) -> Result<Roles, Memory> {
        let mut roles = Roles {
            words: BTreeMap::new(alloc),
            pairs: BTreeSet::new(alloc),
        };
        for pair in k.hierarchy() {
            roles.take(pair.0)?;
            roles.take(pair.1)?;
            let below = roles.way(pair.0).number();
            let above = roles.way(pair.1).number();
            let _ = roles.pairs.insert((below, above))?;
        }
        Ok(roles)
    }

    fn take(&mut self, role: Role) -> Result<(), Memory> {
        let number = self.words.len().saturating_add(1);
        if !self.words.contains_key(&role.id.0) {
            let _ = self.words.insert(role.id.0, number)?;
        }
        Ok(())
    }

    pub(crate) fn way(&self, role: Role) -> Way {
        Way {
            role,
            word: self.words.get(&role.id.0).copied().unwrap_or(0),
        }
    }

    pub(crate) fn is_below(&self, below: Way, above: Way) -> bool {
        below.role == above.role
            || (below.word > 0
                && above.word > 0
                && self.pairs.contains(&(below.number(), above.number())))
    }
}
