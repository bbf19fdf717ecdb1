// Axioms as pieces of knowledge.
ghost use Rattle.std.specs.Prelude.{◌≡◌, IfOk, OnOk};
ghost use Rattle.logic_terms.specs.Shown.{concept_of, claim_of, claims_of};
ghost use Rattle.logic_terms.specs.Concept.{ComplementOf, HasValue};
ghost use Rattle.absorb.specs.Pieces.{pieces_of};
ghost use Rattle.absorb.specs.Sorted.{with_pieces, sorted};
ghost use Rattle.absorb.specs.Found.{found};

use crate::inclusions::include;
use crate::pieces::Pieces;
use logic_terms::{Axiom, Axioms, Class, Role};
use std::alloc::Global;
use wiki_base::{Memory, WordId};

// The pieces of axioms.
pub(crate) fn gather(alloc: Global, axioms: &Axioms) -> Result<Pieces, Memory>
    ensures { IfOk result (λ pieces. found pieces ≡ sorted (claims_of axioms.now)) }
{
    let mut pieces = Pieces::new(alloc);
    for place in 0..axioms.len() {
        sort(alloc, &mut pieces, axioms.get(place))?;
    }
    Ok(pieces)
}

// Adds the pieces of an axiom.
fn sort(alloc: Global, pieces: &mut Pieces, stated: &Axiom) -> Result<(), Memory>
    ensures { OnOk result (found pieces.new ≡ with_pieces (found pieces.old) (pieces_of (claim_of stated.now))) }
{
    match stated {
        Axiom::SubClass(below, above) => include(alloc, pieces, below, above),
        Axiom::SubRole(below, above) => pieces.put_below(*below, *above),
        Axiom::Member(class, name) => pieces.assert(*name, class.copy(alloc)?),
        Axiom::Related(role, from, to) => pieces.relate(*role, *from, *to),
        Axiom::NotRelated(role, from, to) => pieces.assert(*from, not_value(alloc, *role, *to)?),
        Axiom::Equal(one, other) => pieces.equate(*one, *other),
        Axiom::Differ(one, other) => pieces.tell_apart(*one, *other),
        Axiom::Transitive(word) => pieces.lead_on(*word),
    }
}

// The class of what is not related to a name's element.
fn not_value(alloc: Global, role: Role, name: WordId) -> Result<Class, Memory>
    ensures { IfOk result (λ made. concept_of made ≡ ComplementOf (HasValue role name)) }
{
    let value = Box::new(alloc, Class::Value(role, name))?;
    Ok(Class::Not(value))
}
