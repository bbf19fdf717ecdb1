// A model that has many names outside a class at once.
ghost use Rattle.std.specs.Prelude.{◌≡◌, ◌≤◌, IfOk, IfSome, IsTrue, length, take};
ghost use Rattle.logic_terms.specs.Plain.{are_plain};
ghost use Rattle.logic_terms.specs.Shown.{claims_of};
ghost use Rattle.absorb.specs.Mentioned.{are_over};
ghost use Rattle.owl_eval.specs.Checked.{kept_claims};
ghost use Rattle.answers.specs.Fit.{IsFit};

use crate::asking::is_outside;
use crate::question::Question;
use logic_terms::{Axiom, Axioms};
use owl_eval::CheckedModel;
use reasoner::{Verdict, searched_verdict};
use std::alloc::Global;
use wiki_base::{Memory, WordId};

// Below this budget each name is asked about by itself. The search for all of them at once gets no more.
const DENYING_BUDGET: u64 = 100_000;

// A model of the kept axioms in which the names that may be answers are outside the class, if one is found. It is looked for
// where there are two or more: for one name its own verdict is the same search.
pub(crate) fn other_model(
    alloc: Global,
    question: &Question<'_>,
) -> Result<Option<CheckedModel>, Memory>
    requires { IsFit question.now }
    ensures { IfOk result (λ other. IfSome other (λ m. kept_claims m ≡ kept_claims question.now.kept.now)) }
{
    if question.budget < DENYING_BUDGET {
        return Ok(None);
    }
    let count = question.kept.axioms().len();
    let axioms = all_denied(alloc, question)?;
    if axioms.len() - count < 2 {
        return Ok(None);
    }
    match searched_verdict(alloc, axioms, question.names, DENYING_BUDGET)? {
        Verdict::Consistent(model) => Ok(Some(without_denials(model, count))),
        _ => Ok(None),
    }
}

// The model of the first axioms alone.
fn without_denials(model: CheckedModel, count: usize) -> CheckedModel
    requires { count ≤ length (kept_claims model) }
    ensures { kept_claims result ≡ take count (kept_claims model) }
{
    let mut first = model;
    let end = first.axioms().len();
    first.remove(count, end);
    first
}

// The kept axioms, and behind them that each name that may be an answer is in the complement of the class.
fn all_denied(alloc: Global, question: &Question<'_>) -> Result<Axioms, Memory>
    requires { IsFit question.now }
    ensures over { IfOk result (λ made. IsTrue (are_over question.now.names.now (claims_of made))) }
    ensures plain { IfOk result (λ made. IsTrue (are_plain (claims_of made))) }
    ensures longer { IfOk result (λ made. length (kept_claims question.now.kept.now) ≤ length (claims_of made)) }
    ensures first { IfOk result (λ made. take (length (kept_claims question.now.kept.now)) (claims_of made) ≡ kept_claims question.now.kept.now) }
{
    let mut axioms = question.kept.axioms().copy()?;
    for name in question.names.as_slice() {
        if may_be_answer(alloc, question, *name)? {
            let copied = question.denial.copy(alloc)?;
            axioms.push(Axiom::Member(copied, *name))?;
        }
    }
    Ok(axioms)
}

// Whether neither the kept interpretation nor a branch of single choices tells of the name.
fn may_be_answer(alloc: Global, question: &Question<'_>, name: WordId) -> Result<bool, Memory>
    requires { IsFit question.now }
{
    let class = question.class;
    let is_out = is_outside(alloc, question.kept, class, question.denial, name)?;
    Ok(!is_out && !question.known.include(class, name))
}
