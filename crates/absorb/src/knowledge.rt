// Absorption as a whole.
ghost use Rattle.std.specs.Prelude.{◌≡◌, true, ◌↔◌, IfOk, IsTrue};
ghost use Rattle.logic_terms.specs.Shown.{claims_of};
ghost use Rattle.logic_terms.specs.Interpretation.{Interpretation};
ghost use Rattle.logic_terms.specs.Known.{theory_of};
ghost use Rattle.logic_terms.specs.Plain.{are_plain, is_plain_theory};
ghost use Rattle.logic_terms.specs.Reading.{IsModel};
ghost use Rattle.logic_terms.specs.Theory.{IsLawful, IsModelOf};
ghost use Rattle.absorb.specs.Absorbed.{IsAbsorbed};
ghost use Rattle.absorb.specs.Mentioned.{are_over};

use crate::hierarchy::hierarchy;
use crate::representatives::representatives;
use crate::sorting::gather;
use crate::transitive::in_order;
use logic_terms::{Axioms, Knowledge, Names};
use std::alloc::Global;
use wiki_base::Memory;

/// The knowledge that axioms over these names make. docs/REASONING.md has its rules, which follow the absorption of
/// description logics (Horrocks, Tsarkov): an inclusion of a class word is an unfolding, one of classes with a role at
/// their head is turned round, and what is left is a class of everything.
pub fn absorb(alloc: Global, axioms: &Axioms, names: &Names) -> Result<Knowledge, Memory>
    requires { IsTrue (are_over names.now (claims_of axioms.now)) }
    ensures exact { IfOk result (λ k. IsAbsorbed (claims_of axioms.now) names.now (theory_of k)) }
    ensures lawful { IfOk result (λ k. IsLawful (theory_of k)) }
    ensures plain { IfOk result (λ k. are_plain (claims_of axioms.now) ≡ true → is_plain_theory (theory_of k) ≡ true) }
    ensures models { IfOk result (λ k. (i : Interpretation) → IsModelOf i (theory_of k) ↔ IsModel i (claims_of axioms.now)) }
{
    let pieces = gather(alloc, axioms)?;
    let given = representatives(alloc, names, pieces.equalities.as_slice())?;
    let roles = hierarchy(alloc, pieces.role_inclusions.as_slice())?;
    let transitive = in_order(alloc, pieces.transitive.as_slice())?;
    Ok(Knowledge::new(
        given,
        roles,
        transitive,
        pieces.assertions,
        pieces.edges,
        pieces.differences,
        pieces.unfoldings,
        pieces.general,
    ))
}
