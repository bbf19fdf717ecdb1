// Answers to the question which names are in a class.
ghost use Rattle.std.specs.Prelude.{◌≡◌, ◌∷◌, [], ◌++◌, ◌&&◌, true, All, Contains, IfNone, IfOk, IfSome, IsTrue, false};
ghost use Rattle.std.specs.List.{list_all};
ghost use Rattle.logic_terms.specs.Shown.{concept_of};
ghost use Rattle.logic_terms.specs.Interpretation.{Interpretation, element_of};
ghost use Rattle.logic_terms.specs.Plain.{is_plain, are_plain};
ghost use Rattle.logic_terms.specs.Reading.{IsIn, IsModel};
ghost use Rattle.wiki_base.specs.declared.numbers.WordId.{WordId};
ghost use Rattle.logic_terms.specs.Complement.{complement};
ghost use Rattle.logic_terms.specs.Names.{names_rise};
ghost use Rattle.absorb.specs.Absorbed.{IsAbsorbed};
ghost use Rattle.absorb.specs.Mentioned.{names_in, is_among, are_over};
ghost use Rattle.owl_eval.specs.Checked.{kept_interp, kept_claims};
ghost use Rattle.consequences.specs.Known.{theory_in};
ghost use Rattle.answers.specs.Answered.{IsInAll, IsOutsideSome, IsUnknown};
ghost use Rattle.answers.specs.Fit.{IsFit};
ghost use Rattle.answers.specs.Single.{Answered};

use crate::asserting::asserting;
use crate::denying::other_model;
use crate::question::Question;
use absorb::absorb;
use consequences::Consequences;
use logic_terms::{Axiom, Class, Names, negated};
use owl_eval::{CheckedModel, axiom_true};
use reasoner::{Verdict, decide};
use std::alloc::Global;
use wiki_base::{Memory, WordId};

/// The names in a class, and those of which it is not known, each in order of number.
#[derive(Drop)]
pub struct Answers {
    /// In the class in every finite model of the axioms.
    pub yes: Names,
    /// The budget was spent before it was decided.
    pub unknown: Names,
}

/// The given names that are in a class in every finite model of the kept axioms. A name that is outside the class in the
/// kept interpretation is no answer, and one that a branch of single choices shows to be in it is one. From a budget of 100,000
/// on a model is looked for that has all others outside at once; for each that is inside there too, the verdict on the axioms
/// with its membership in the complement decides, within `budget` rule applications.
pub fn ask(
    alloc: Global,
    class: &Class,
    kept: &CheckedModel,
    names: &Names,
    budget: u64,
) -> Result<Answers, Memory>
    requires over { IsTrue (are_over names.now (kept_claims kept.now) && list_all (is_among names.now) (names_in (concept_of class.now))) }
    requires plain { IsTrue (are_plain (kept_claims kept.now) && is_plain (concept_of class.now)) }
    ensures yes { IfOk result (λ a. All (IsInAll (kept_claims kept.now) (concept_of class.now)) a.yes) }
    ensures unknown { IfOk result (λ a. All (IsUnknown (kept_claims kept.now) names.now budget (concept_of class.now)) a.unknown) }
    ensures kept_has_unknown { IfOk result
        (λ a. All (λ n. IsIn (kept_interp kept.now) (concept_of class.now) (element_of (kept_interp kept.now) n)) a.unknown) }
    ensures others { IfOk result (λ a. (n : WordId) → Contains names.now n → ¬ Contains a.yes n → ¬ Contains a.unknown n
        → IsOutsideSome (kept_claims kept.now) (concept_of class.now) n) }
    ensures given { IfOk result (λ a. All (Contains names.now) a.yes × All (Contains names.now) a.unknown) }
    ensures apart { IfOk result (λ a. (n : WordId) → Contains a.yes n → ¬ Contains a.unknown n) }
{
    let k = absorb(alloc, kept.axioms(), names)?;
    let known = Consequences::new(alloc, k, budget)?;
    ask_known(alloc, &known, class, kept, names, budget)
}

/// The same with the consequences of the knowledge that the kept axioms were absorbed to, which serve many classes.
pub fn ask_known(
    alloc: Global,
    known: &Consequences,
    class: &Class,
    kept: &CheckedModel,
    names: &Names,
    budget: u64,
) -> Result<Answers, Memory>
    requires absorbed { IsAbsorbed (kept_claims kept.now) names.now (theory_in known.now) }
    requires over { IsTrue (are_over names.now (kept_claims kept.now) && list_all (is_among names.now) (names_in (concept_of class.now))) }
    requires plain { IsTrue (are_plain (kept_claims kept.now) && is_plain (concept_of class.now)) }
    ensures yes { IfOk result (λ a. All (IsInAll (kept_claims kept.now) (concept_of class.now)) a.yes) }
    ensures unknown { IfOk result (λ a. All (IsUnknown (kept_claims kept.now) names.now budget (concept_of class.now)) a.unknown) }
    ensures kept_has_unknown { IfOk result
        (λ a. All (λ n. IsIn (kept_interp kept.now) (concept_of class.now) (element_of (kept_interp kept.now) n)) a.unknown) }
    ensures others { IfOk result (λ a. (n : WordId) → Contains names.now n → ¬ Contains a.yes n → ¬ Contains a.unknown n
        → IsOutsideSome (kept_claims kept.now) (concept_of class.now) n) }
    ensures given { IfOk result (λ a. All (Contains names.now) a.yes × All (Contains names.now) a.unknown) }
    ensures apart { IfOk result (λ a. (n : WordId) → Contains a.yes n → ¬ Contains a.unknown n) }
{
    let denial = negated(alloc, class)?;
    let question = Question {
        known,
        class,
        denial: &denial,
        kept,
        names,
        budget,
    };
    all_decided(alloc, &question)
}

// The answers to a question.
fn all_decided(alloc: Global, question: &Question<'_>) -> Result<Answers, Memory>
    requires { IsFit question.now }
    ensures yes { IfOk result (λ a. All (IsInAll (kept_claims question.now.kept.now) (concept_of question.now.class.now)) a.yes) }
    ensures unknown { IfOk result (λ a.
        All (IsUnknown (kept_claims question.now.kept.now) question.now.names.now question.now.budget (concept_of question.now.class.now)) a.unknown) }
    ensures kept_has_unknown { IfOk result (λ a. All (λ n.
        IsIn (kept_interp question.now.kept.now) (concept_of question.now.class.now) (element_of (kept_interp question.now.kept.now) n)) a.unknown) }
    ensures others { IfOk result (λ a. (n : WordId) → Contains question.now.names.now n → ¬ Contains a.yes n → ¬ Contains a.unknown n
        → IsOutsideSome (kept_claims question.now.kept.now) (concept_of question.now.class.now) n) }
    ensures given { IfOk result (λ a. All (Contains question.now.names.now) a.yes × All (Contains question.now.names.now) a.unknown) }
    ensures apart { IfOk result (λ a. (n : WordId) → Contains a.yes n → ¬ Contains a.unknown n) }
{
    let other = other_model(alloc, question)?;
    each_decided(alloc, question, &other)
}

// The same where another model of the axioms was looked for.
fn each_decided(
    alloc: Global,
    question: &Question<'_>,
    other: &Option<CheckedModel>,
) -> Result<Answers, Memory>
    requires fit { IsFit question.now }
    requires other { IfSome other.now (λ m. kept_claims m ≡ kept_claims question.now.kept.now) }
    ensures yes { IfOk result (λ a. All (IsInAll (kept_claims question.now.kept.now) (concept_of question.now.class.now)) a.yes) }
    ensures unknown { IfOk result (λ a.
        All (IsUnknown (kept_claims question.now.kept.now) question.now.names.now question.now.budget (concept_of question.now.class.now)) a.unknown) }
    ensures kept_has_unknown { IfOk result (λ a. All (λ n.
        IsIn (kept_interp question.now.kept.now) (concept_of question.now.class.now) (element_of (kept_interp question.now.kept.now) n)) a.unknown) }
    ensures others { IfOk result (λ a. (n : WordId) → Contains question.now.names.now n → ¬ Contains a.yes n → ¬ Contains a.unknown n
        → IsOutsideSome (kept_claims question.now.kept.now) (concept_of question.now.class.now) n) }
    ensures given { IfOk result (λ a. All (Contains question.now.names.now) a.yes × All (Contains question.now.names.now) a.unknown) }
    ensures apart { IfOk result (λ a. (n : WordId) → Contains a.yes n → ¬ Contains a.unknown n) }
{
    let mut yes = Names::new(alloc);
    let mut unknown = Names::new(alloc);
    for name in question.names.as_slice() {
        match decided(alloc, question, other, *name)? {
            Asked::Yes => yes.push(*name)?,
            Asked::Unknown => unknown.push(*name)?,
            Asked::No => {}
        }
    }
    Ok(Answers { yes, unknown })
}

// Whether one name is in the class.
#[derive(Drop)]
pub(crate) enum Asked {
    Yes,
    Unknown,
    No,
}

// Whether one name is in the class.
fn decided(
    alloc: Global,
    question: &Question<'_>,
    other: &Option<CheckedModel>,
    name: WordId,
) -> Result<Asked, Memory>
    requires fit { IsFit question.now }
    requires other { IfSome other.now (λ m. kept_claims m ≡ kept_claims question.now.kept.now) }
    requires rising { names_rise question.now.names.now ≡ true }
    requires given { IsTrue (is_among question.now.names.now name) }
    ensures { IfOk result (λ a. Answered (kept_interp question.now.kept.now) (kept_claims question.now.kept.now) question.now.names.now
        question.now.budget (concept_of question.now.class.now) name a) }
{
    let class = question.class;
    let denial = question.denial;
    let known = question.known;
    let is_out = is_outside(alloc, question.kept, class, denial, name)?;
    if is_out {
        return Ok(Asked::No);
    }
    if known.include(class, name) {
        return Ok(Asked::Yes);
    }
    let is_out_there = is_outside_other(alloc, other, class, denial, name)?;
    if is_out_there {
        return Ok(Asked::No);
    }
    let with_denial = asserting(alloc, known.knowledge(), name, denial)?;
    match decide(alloc, &with_denial, question.budget)? {
        Verdict::Consistent(_) => Ok(Asked::No),
        Verdict::Inconsistent(_) => Ok(Asked::Yes),
        Verdict::Spent(_) => Ok(Asked::Unknown),
    }
}

// Whether another model of the same axioms, where there is one, has a name outside the class.
fn is_outside_other(
    alloc: Global,
    other: &Option<CheckedModel>,
    class: &Class,
    denial: &Class,
    name: WordId,
) -> Result<bool, Memory>
    requires { concept_of denial.now ≡ complement (concept_of class.now) }
    ensures some { IfSome other.now (λ m. IfOk result (λ yes. IsTrue yes → IsOutsideSome (kept_claims m) (concept_of class.now) name)) }
    ensures none { IfNone other.now (IfOk result (λ yes. yes ≡ false)) }
{
    match other {
        Some(model) => is_outside(alloc, model, class, denial, name),
        None => Ok(false),
    }
}

// Whether the kept interpretation has a name outside the class, of which the denial is the complement.
pub(crate) fn is_outside(
    alloc: Global,
    kept: &CheckedModel,
    class: &Class,
    denial: &Class,
    name: WordId,
) -> Result<bool, Memory>
    requires { concept_of denial.now ≡ complement (concept_of class.now) }
    ensures outside { IfOk result (λ yes. IsTrue yes → IsOutsideSome (kept_claims kept.now) (concept_of class.now) name) }
    ensures inside { IfOk result (λ yes. ¬ IsTrue yes → IsIn (kept_interp kept.now) (concept_of class.now) (element_of (kept_interp kept.now) name)) }
{
    let copied = denial.copy(alloc)?;
    let denied = Axiom::Member(copied, name);
    Ok(axiom_true(kept.interp(), &denied))
}
