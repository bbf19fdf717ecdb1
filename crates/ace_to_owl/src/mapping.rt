// The mapping of statements and questions.
ghost use Rattle.std.specs.Prelude.{◌≡◌, true, Contains, IfOk};
ghost use Rattle.logic_terms.specs.Introduced.{IntroducesOnce};
ghost use Rattle.logic_terms.specs.Structure.{referents_in};
ghost use Rattle.logic_terms.specs.Shown.{structure_of};
ghost use Rattle.logic_terms.specs.Plain.{is_plain, are_plain};
ghost use Rattle.ace_to_owl.specs.Answers.{mapped, asked};
ghost use Rattle.ace_to_owl.specs.Mapping.{axioms_stated, class_asked};
ghost use Rattle.ace_to_owl.specs.Truths.{SameTruth, SameReading, AnswersTruly, AnswersByReading};

use crate::alone::class_asked;
use crate::fault::Fault;
use crate::statement::axioms_stated;
use logic_terms::{Axioms, Cause, Class, Drs};
use std::alloc::Global;
use wiki_base::Memory;

/// The axioms of a statement, or why there are none.
#[derive(Drop)]
pub enum Mapped {
    Axioms(Axioms),
    Outside(Cause),
}

/// The class that a question asks for, or why there is none.
#[derive(Drop)]
pub enum Asked {
    Class(Class),
    Outside(Cause),
}

/// Maps a statement's structure to axioms: those of the mapping, or its first cause. Where each referent is introduced
/// once, the structure is true exactly where all the axioms are, in every finite interpretation. Each class in them is in
/// negation normal form, with at least two members in each `And` and `Or`.
pub fn map_statement(alloc: Global, drs: &Drs) -> Result<Mapped, Memory>
    ensures exact { IfOk result (λ answer. mapped answer ≡ axioms_stated (structure_of drs.now)) }
    ensures truth { IfOk result (λ answer. IfOk (mapped answer) (λ claims. IntroducesOnce (structure_of drs.now) → SameTruth (structure_of drs.now) claims)) }
    ensures reading { IfOk result (λ answer. IfOk (mapped answer) (λ claims. IntroducesOnce (structure_of drs.now)
        → SameReading (structure_of drs.now) claims)) }
    ensures plain { IfOk result (λ answer. IfOk (mapped answer) (λ claims. are_plain claims ≡ true)) }
{
    match axioms_stated(alloc, drs) {
        Ok(axioms) => Ok(Mapped::Axioms(axioms)),
        Err(Fault::Outside(cause)) => Ok(Mapped::Outside(cause)),
        Err(Fault::Memory) => Err(Memory),
    }
}

/// Maps a question's structure, which asks for one of its referents, to a class: that of the mapping, or its first cause.
/// Where each referent is introduced once, an element is in the class exactly where the structure without that referent is
/// true with the element for it. The class is in negation normal form, with at least two members in each `And` and `Or`.
pub fn map_question(alloc: Global, drs: &Drs, referent: u16) -> Result<Asked, Memory>
    ensures exact { IfOk result (λ answer. asked answer ≡ class_asked (structure_of drs.now) referent) }
    ensures truth { IfOk result (λ answer. IfOk (asked answer) (λ class. IntroducesOnce (structure_of drs.now)
        → Contains (referents_in (structure_of drs.now)) referent → AnswersTruly (structure_of drs.now) referent class)) }
    ensures reading { IfOk result (λ answer. IfOk (asked answer) (λ class. IntroducesOnce (structure_of drs.now)
        → Contains (referents_in (structure_of drs.now)) referent → AnswersByReading (structure_of drs.now) referent class)) }
    ensures plain { IfOk result (λ answer. IfOk (asked answer) (λ class. is_plain class ≡ true)) }
{
    match class_asked(alloc, drs, referent) {
        Ok(class) => Ok(Asked::Class(class)),
        Err(Fault::Outside(cause)) => Ok(Asked::Outside(cause)),
        Err(Fault::Memory) => Err(Memory),
    }
}
