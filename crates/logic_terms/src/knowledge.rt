// Absorbed knowledge.
ghost use Rattle.std.specs.Prelude.{◌≡◌, ◌&&◌, List, map, IfOk};
ghost use Rattle.std.specs.List.{list_any};
ghost use Rattle.logic_terms.specs.Shown.{concept_of, concepts_of};
ghost use Rattle.logic_terms.specs.Known.{theory_of, stated};
ghost use Rattle.logic_terms.specs.Same.{same_role};
ghost use Rattle.logic_terms.specs.Theory.{representative, is_below, is_transitive};

use crate::expressions::{Class, Classes, Role};
use std::alloc::Global;
use wiki_base::{Memory, WordId};

/// What is known, sorted for a search.
#[derive(Drop)]
pub struct Knowledge {
    names: Vec<(WordId, WordId)>,
    hierarchy: Vec<(Role, Role)>,
    transitive: Vec<WordId>,
    assertions: Vec<(WordId, Class)>,
    edges: Vec<(Role, WordId, WordId)>,
    differences: Vec<(WordId, WordId)>,
    unfoldings: Vec<(WordId, Class)>,
    general: Classes,
}

impl Knowledge {
    /// Knowledge of its lists. It takes no memory.
    pub fn new(
        names: Vec<(WordId, WordId)>,
        hierarchy: Vec<(Role, Role)>,
        transitive: Vec<WordId>,
        assertions: Vec<(WordId, Class)>,
        edges: Vec<(Role, WordId, WordId)>,
        differences: Vec<(WordId, WordId)>,
        unfoldings: Vec<(WordId, Class)>,
        general: Classes,
    ) -> Self
        ensures names { (theory_of result).names ≡ names.items }
        ensures hierarchy { (theory_of result).hierarchy ≡ hierarchy.items }
        ensures transitive { (theory_of result).transitive ≡ transitive.items }
        ensures assertions { (theory_of result).assertions ≡ stated assertions.items }
        ensures edges { (theory_of result).edges ≡ edges.items }
        ensures differences { (theory_of result).differences ≡ differences.items }
        ensures unfoldings { (theory_of result).unfoldings ≡ stated unfoldings.items }
        ensures general { (theory_of result).general ≡ concepts_of general }
    {
        Knowledge {
            names,
            hierarchy,
            transitive,
            assertions,
            edges,
            differences,
            unfoldings,
            general,
        }
    }

    /// The given names in order of number, each with its representative.
    pub fn names(&self) -> &[(WordId, WordId)]
        ensures { result.now ≡ (theory_of self.now).names }
    {
        self.names.as_slice()
    }

    /// Pairs of different roles, the one below first.
    pub fn hierarchy(&self) -> &[(Role, Role)]
        ensures { result.now ≡ (theory_of self.now).hierarchy }
    {
        self.hierarchy.as_slice()
    }

    /// The relation words that are transitive.
    pub fn transitive(&self) -> &[WordId]
        ensures { result.now ≡ (theory_of self.now).transitive }
    {
        self.transitive.as_slice()
    }

    /// Names with the classes that they are in.
    pub fn assertions(&self) -> &[(WordId, Class)]
        ensures { stated result.now ≡ (theory_of self.now).assertions }
    {
        self.assertions.as_slice()
    }

    /// Roles with the two names that are a pair of them.
    pub fn edges(&self) -> &[(Role, WordId, WordId)]
        ensures { result.now ≡ (theory_of self.now).edges }
    {
        self.edges.as_slice()
    }

    /// Pairs of names with different elements.
    pub fn differences(&self) -> &[(WordId, WordId)]
        ensures { result.now ≡ (theory_of self.now).differences }
    {
        self.differences.as_slice()
    }

    /// Class words with the classes that their elements are in.
    pub fn unfoldings(&self) -> &[(WordId, Class)]
        ensures { stated result.now ≡ (theory_of self.now).unfoldings }
    {
        self.unfoldings.as_slice()
    }

    /// The classes that each element is in.
    pub fn general(&self) -> &Classes
        ensures { concepts_of result.now ≡ (theory_of self.now).general }
    {
        &self.general
    }

    /// The representative of a given name, and none of any other name. It takes no memory.
    pub fn representative(&self, name: WordId) -> Option<WordId>
        ensures { result ≡ representative (theory_of self.now) name }
    {
        for entry in &self.names {
            if name.0 == entry.0.0 {
                return Some(entry.1);
            }
        }
        None
    }

    /// Whether a role is below another: it is the same, or the hierarchy has the pair. It takes no memory.
    pub fn is_below(&self, below: Role, above: Role) -> bool
        ensures { result ≡ is_below (theory_of self.now) below above }
    {
        below.is_same(above) || self.has_pair(below, above)
    }

    fn has_pair(&self, below: Role, above: Role) -> bool
        ensures { result ≡ list_any (λ p. same_role p.0 below && same_role p.1 above) (theory_of self.now).hierarchy }
    {
        self.hierarchy
            .iter()
            .any(|pair| pair.0.is_same(below) && pair.1.is_same(above))
    }

    /// Whether a role is transitive: its word is. It takes no memory.
    pub fn is_transitive(&self, role: Role) -> bool
        ensures { result ≡ is_transitive (theory_of self.now) role }
    {
        self.transitive.iter().any(|word| role.id.0 == word.0)
    }

    /// Equal knowledge in memory of its own.
    pub fn copy(&self, alloc: Global) -> Result<Knowledge, Memory>
        ensures { IfOk result (λ copied. theory_of copied ≡ theory_of self.now) }
    {
        Ok(Knowledge {
            names: Vec::from_slice(alloc, self.names.as_slice())?,
            hierarchy: Vec::from_slice(alloc, self.hierarchy.as_slice())?,
            transitive: Vec::from_slice(alloc, self.transitive.as_slice())?,
            assertions: copied(alloc, self.assertions.as_slice())?,
            edges: Vec::from_slice(alloc, self.edges.as_slice())?,
            differences: Vec::from_slice(alloc, self.differences.as_slice())?,
            unfoldings: copied(alloc, self.unfoldings.as_slice())?,
            general: self.general.copy()?,
        })
    }
}

// The same words with equal classes.
fn copied(alloc: Global, entries: &[(WordId, Class)]) -> Result<Vec<(WordId, Class)>, Memory>
    ensures { IfOk result (λ copied. stated copied.items ≡ stated entries.now) }
{
    let mut copied = Vec::new(alloc);
    for entry in entries {
        copied.push((entry.0, entry.1.copy(alloc)?))?;
    }
    Ok(copied)
}
