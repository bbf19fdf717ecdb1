// What is proposed.
use crate::lessons::Sources;
use crate::rules::Rules;
use crate::searching::{End, Search};
use logic_terms::{Axioms, Knowledge};
use owl_eval::Interp;
use std::alloc::Global;
use wiki_base::{Memory, WordId};

/// Those axioms that stand at some places, and all on roles and on which names are one; of what each element is in no more than
/// that the elements of some names are in it.
#[derive(Drop)]
pub struct Part {
    pub places: Vec<usize>,
    pub names: Vec<WordId>,
}

/// What a search proposes.
#[derive(Drop)]
pub enum Proposed {
    /// This may be a model.
    Model(Interp),
    /// This part of the axioms may have no model.
    Clash(Part),
    /// Nothing was found within the limit.
    Nothing,
}

/// A proposal on axioms, which were absorbed into this knowledge: an interpretation that may be a model of them, or a part of them
/// that may have none. A model that is kept of other axioms is followed where it can be. One node may stand for successors of
/// many, so an interpretation is small, and soon found, where a tree of successors would be large. `limit` is how many classes,
/// edges and rules are looked at. Nothing is said of what is found.
pub fn propose(
    alloc: Global,
    k: &Knowledge,
    axioms: &Axioms,
    kept: Option<&Interp>,
    limit: u64,
) -> Result<Proposed, Memory> {
    let model = match kept {
        Some(interp) => Some(interp.copy()?),
        None => None,
    };
    let rules = Rules::new(alloc, k, axioms, model, None)?;
    if Search::is_beyond(&rules) {
        return Ok(Proposed::Nothing);
    }
    if let Some(place) = rules.false_difference {
        let mut places = Vec::new(alloc);
        places.push(place)?;
        let names = Vec::new(alloc);
        return Ok(Proposed::Clash(Part { places, names }));
    }
    let mut search = Search::begun(&rules, k)?;
    match search.end(&rules, limit)? {
        End::Open => match search.graph.drawn(&rules, k)? {
            Some(interp) => Ok(Proposed::Model(interp)),
            None => Ok(Proposed::Nothing),
        },
        End::Shut(sources) => Ok(Proposed::Clash(part_at(&rules, k, &sources)?)),
        End::Spent => Ok(Proposed::Nothing),
    }
}

// How much one try with an axiom less may look at.
const MOST_AT_ONCE: u64 = 200_000;

/// A smaller part, of which no axiom can be left out as far as was looked, and which may have no model. `limit` is how many classes,
/// edges and rules all tries together may look at.
pub fn narrow(
    alloc: Global,
    k: &Knowledge,
    axioms: &Axioms,
    whole: &Part,
    limit: u64,
) -> Result<Part, Memory> {
    let rules = Rules::new(alloc, k, axioms, None, None)?;
    let mut left = sources(&rules, whole)?;
    let mut looks = limit;
    for place in 0..rules.sources {
        if left.has(place) && looks > 0 {
            left.remove(place);
            match shut(alloc, k, axioms, &left, &mut looks)? {
                Some(fewer) => left = fewer,
                None => left.add(place),
            }
        }
    }
    part_at(&rules, k, &left)
}

// The places of axioms and of names' nodes.
fn sources(rules: &Rules, whole: &Part) -> Result<Sources, Memory> {
    let mut sources = Sources::new(rules.terms.alloc, rules.place_of(rules.roots))?;
    for place in &whole.places {
        sources.add(*place);
    }
    for name in &whole.names {
        sources.add(rules.place_of(rules.node(name.0)));
    }
    Ok(sources)
}

// The axioms and names at these places.
fn part_at(rules: &Rules, k: &Knowledge, sources: &Sources) -> Result<Part, Memory> {
    let alloc = rules.terms.alloc;
    let mut names = Vec::new(alloc);
    for entry in k.names() {
        if entry.0.0 == entry.1.0 && sources.has(rules.place_of(rules.node(entry.0.0))) {
            names.push(entry.0)?;
        }
    }
    Ok(Part {
        places: sources.places(alloc, rules.sources)?,
        names,
    })
}

// Those of these axioms that a clash of theirs rests on, if one is found. What is looked at is taken off a number.
fn shut(
    alloc: Global,
    k: &Knowledge,
    axioms: &Axioms,
    only: &Sources,
    looks: &mut u64,
) -> Result<Option<Sources>, Memory> {
    let rules = Rules::new(alloc, k, axioms, None, Some(only))?;
    if Search::is_beyond(&rules) {
        return Ok(None);
    }
    let mut search = Search::begun(&rules, k)?;
    let end = search.end(&rules, MOST_AT_ONCE.min(*looks))?;
    *looks = looks.saturating_sub(search.looks);
    match end {
        End::Shut(sources) => Ok(Some(sources)),
        _ => Ok(None),
    }
}
