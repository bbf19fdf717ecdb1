// Lists of places, and the axioms of the parts there.
ghost use Rattle.std.specs.Prelude.{◌≡◌, ◌++◌, ◌∷◌, [], ◌≤◌, drop, length, IfOk, MatchOption};
ghost use Rattle.logic_terms.specs.Shown.{claims_of};
ghost use Rattle.explain.specs.Answers.{claims_in};
ghost use Rattle.explain.specs.Reasons.{places_from, stated_at, without};

use crate::part::Part;
use lists::List;
use logic_terms::Axioms;
use std::alloc::Global;
use wiki_base::Memory;

// So many places, from 0 on.
pub(crate) fn first_places(alloc: Global, count: usize) -> Result<List<usize>, Memory>
    ensures { IfOk result (λ places. places ≡ places_from 0 count) }
{
    let mut places = List::new(alloc);
    for place in 0..count {
        places.push(place)?;
    }
    Ok(places)
}

// The places from one of the list on.
pub(crate) fn behind(places: &[usize], from: usize) -> &[usize]
    requires { from ≤ length places.now }
    ensures { result.now ≡ drop from places.now }
{
    &places[from..]
}

// The first place of a list.
pub(crate) fn first_of(places: &[usize]) -> Option<usize>
    ensures { MatchOption result (places.now ≡ []) (λ place. places.now ≡ place ∷ drop 1 places.now) }
{
    match places {
        [] => None,
        [first, ..] => Some(*first),
    }
}

// The places but for one.
pub(crate) fn others(alloc: Global, places: &[usize], place: usize) -> Result<List<usize>, Memory>
    ensures { IfOk result (λ others. others ≡ without place places.now) }
{
    let mut others = List::new(alloc);
    for other in places {
        if *other != place {
            others.push(*other)?;
        }
    }
    Ok(others)
}

// The places of both lists.
pub(crate) fn joined(alloc: Global, kept: &[usize], rest: &[usize]) -> Result<List<usize>, Memory>
    ensures { IfOk result (λ places. places ≡ kept.now ++ rest.now) }
{
    let mut places = List::from_slice(alloc, kept)?;
    places.extend(rest)?;
    Ok(places)
}

// Copies of the axioms of the parts at these places.
pub(crate) fn gathered(alloc: Global, parts: &[Part], places: &[usize]) -> Result<Axioms, Memory>
    ensures { IfOk result (λ axioms. claims_of axioms ≡ stated_at (claims_in parts.now) places.now) }
{
    let mut items = Vec::new(alloc);
    for place in places {
        if let Some(part) = parts.get(*place) {
            let mut copied = part.axioms.copy()?.into_vec();
            items.append(&mut copied)?;
        }
    }
    Ok(Axioms::from_vec(items))
}
