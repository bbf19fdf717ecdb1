// Structures in the making.
ghost use Rattle.std.specs.Prelude.{◌≡◌, ◌++◌, map, IfOk};
ghost use Rattle.logic_terms.specs.Shown.{condition_of, structure_of};
ghost use Rattle.logic_terms.specs.Structure as structures;
ghost use Rattle.logic_terms.specs.Structure.{conditions_from};
ghost use Rattle.drs_build.specs.Joining.{both};
ghost use Rattle.drs_build.specs.Joining as joining;
ghost use Rattle.drs_build.specs.Made.{structure_in};

use logic_terms::{Cond, Conds, Drs, Referents, Thing};
use std::alloc::Global;
use wiki_base::{Memory, WordId};

/// The referents and the conditions of a structure.
#[derive(Drop)]
pub(crate) struct Parts {
    referents: Vec<u16>,
    conditions: Vec<Cond>,
}

fn joined_referents(mut one: Vec<u16>, mut other: Vec<u16>) -> Result<Vec<u16>, Memory>
    ensures { IfOk result (λ both. both.items ≡ one.items ++ other.items) }
{
    one.append(&mut other)?;
    Ok(one)
}

#[tactic(auto, using(crate::proofs::JoinLemmas::conditions_joined))]
fn joined_conditions(mut one: Vec<Cond>, mut other: Vec<Cond>) -> Result<Vec<Cond>, Memory>
    ensures { IfOk result (λ all. conditions_from (map condition_of all.items)
        ≡ both (conditions_from (map condition_of one.items)) (conditions_from (map condition_of other.items))) }
{
    one.append(&mut other)?;
    Ok(one)
}

impl Parts {
    pub(crate) fn empty(alloc: Global) -> Parts
        ensures { structure_in result ≡ joining.empty }
    {
        Parts {
            referents: Vec::new(alloc),
            conditions: Vec::new(alloc),
        }
    }

    /// One referent and no condition.
    pub(crate) fn introduced(alloc: Global, referent: u16) -> Result<Parts, Memory>
        ensures { IfOk result (λ parts. structure_in parts ≡ joining.introduced referent) }
    {
        let mut referents = Vec::new(alloc);
        referents.push(referent)?;
        Ok(Parts {
            referents,
            conditions: Vec::new(alloc),
        })
    }

    /// One condition and no referent.
    pub(crate) fn only(alloc: Global, condition: Cond) -> Result<Parts, Memory>
        ensures { IfOk result (λ parts. structure_in parts ≡ joining.only (condition_of condition)) }
    {
        let mut conditions = Vec::new(alloc);
        conditions.push(condition)?;
        Ok(Parts {
            referents: Vec::new(alloc),
            conditions,
        })
    }

    /// Both lists, these first.
    pub(crate) fn join(self, other: Parts) -> Result<Parts, Memory>
        ensures { IfOk result (λ parts. structure_in parts ≡ joining.◌⊕◌ (structure_in self) (structure_in other)) }
    {
        let Parts {
            referents,
            conditions,
        } = self;
        let Parts {
            referents: more_referents,
            conditions: more_conditions,
        } = other;
        Ok(Parts {
            referents: joined_referents(referents, more_referents)?,
            conditions: joined_conditions(conditions, more_conditions)?,
        })
    }

    /// The structure.
    pub(crate) fn into_drs(self) -> Drs
        ensures { structure_of result ≡ structure_in self }
    {
        let Parts {
            referents,
            conditions,
        } = self;
        Drs::new(Referents::from_vec(referents), Conds::from_vec(conditions))
    }

    /// The one condition that this is not so.
    pub(crate) fn negated(self, alloc: Global) -> Result<Parts, Memory>
        ensures { IfOk result (λ parts. structure_in parts ≡ joining.only (structures.Negation (structure_in self))) }
    {
        Parts::only(alloc, Cond::Not(self.into_drs()))
    }

    /// The one condition that this implies the other.
    pub(crate) fn implies(self, alloc: Global, right: Parts) -> Result<Parts, Memory>
        ensures { IfOk result (λ parts. structure_in parts ≡ joining.only (structures.Implication (structure_in self) (structure_in right))) }
    {
        Parts::only(alloc, Cond::Implies(self.into_drs(), right.into_drs()))
    }

    /// The one condition that this or the other is so.
    pub(crate) fn or(self, alloc: Global, other: Parts) -> Result<Parts, Memory>
        ensures { IfOk result (λ parts. structure_in parts ≡ joining.only (structures.Disjunction (structure_in self) (structure_in other))) }
    {
        Parts::only(alloc, Cond::Or(self.into_drs(), other.into_drs()))
    }

    /// The one condition that the thing has the noun.
    pub(crate) fn is_a(alloc: Global, noun: WordId, thing: Thing) -> Result<Parts, Memory>
        ensures { IfOk result (λ parts. structure_in parts ≡ joining.only (structures.IsA noun thing)) }
    {
        Parts::only(alloc, Cond::Class(noun, thing))
    }

    /// The one condition that the things are a pair of the relation word.
    pub(crate) fn related(
        alloc: Global,
        word: WordId,
        from: Thing,
        to: Thing,
    ) -> Result<Parts, Memory>
        ensures { IfOk result (λ parts. structure_in parts ≡ joining.only (structures.AreRelated word from to)) }
    {
        Parts::only(alloc, Cond::Rel(word, from, to))
    }

    /// The one condition that the things are the same.
    pub(crate) fn same(alloc: Global, one: Thing, other: Thing) -> Result<Parts, Memory>
        ensures { IfOk result (λ parts. structure_in parts ≡ joining.only (structures.AreSame one other)) }
    {
        Parts::only(alloc, Cond::Same(one, other))
    }
}
