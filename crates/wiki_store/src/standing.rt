// The status that a sentence gets among all others.
ghost use Rattle.std.specs.Prelude.{◌≡◌, [], unwrap_or, if◌then◌else◌, IsTrue, IfOk};
ghost use Rattle.absorb.specs.Mentioned.{are_over};
ghost use Rattle.logic_terms.specs.Plain.{are_plain};
ghost use Rattle.logic_terms.specs.Reading.{IsModel};
ghost use Rattle.logic_terms.specs.Shown.{claims_of};
ghost use Rattle.owl_eval.specs.declared.checked.CheckedModel.{CheckedModel as TheModel};
ghost use Rattle.owl_eval.specs.Checked.{kept_interp, kept_claims};
ghost use Rattle.wiki_parts.specs.Found.{meaning_shown};
ghost use Rattle.wiki_parts.specs.Judgements.{status_in, model_in};
ghost use Rattle.wiki_parts.specs.Kept.{stated_by, Stands};
ghost use Rattle.plain_wiki.specs.Knowledge.{is_asserted, live_names};
ghost use Rattle.wiki_store.specs.Putting.{IsThere, known_with, known_beside};

use crate::joining::{Stretch, span_of};
use crate::keeping::Keeping;
use articles::Shared;
use lexicon::Lexicon;
use lists::Copied;
use logic_terms::Axioms;
use owl_eval::CheckedModel;
use reasoner::Verdict;
use std::alloc::Global;
use wiki_base::Memory;
use wiki_parts::{Sense, judged, known_around, live_names};
use wiki_talk::Status;

// The status of a sentence of this meaning in place of those of a stretch, and the model of all axioms with its own ones, where that is
// another one than the kept one.
pub(crate) fn standing(
    alloc: Global,
    lexicon: &Lexicon,
    budget: u64,
    kept: &Keeping,
    stretch: &Stretch<'_>,
    sense: &Shared<Sense>,
) -> Result<(Status, Option<Keeping>), Memory>
    requires there { IsThere stretch.now }
    requires known { kept_claims kept.now ≡ known_with stretch.now }
    requires over { IsTrue (are_over (live_names lexicon.now) (known_beside stretch.now (stated_by (meaning_shown sense.now)))) }
    requires plain { IsTrue (are_plain (known_beside stretch.now (stated_by (meaning_shown sense.now)))) }
    ensures status { IfOk result (λ made. Stands (known_beside stretch.now (stated_by (meaning_shown sense.now))) (live_names lexicon.now) budget
        (meaning_shown sense.now) made.0) }
    ensures model { IfOk result (λ made. kept_claims (unwrap_or made.1 kept.now)
        ≡ known_beside stretch.now (if is_asserted made.0 then stated_by (meaning_shown sense.now) else [])) }
    ensures spent { IfOk result (λ made. made.0 ≡ Status.RedBudget
        → IsModel (kept_interp kept.now) (known_beside stretch.now (stated_by (meaning_shown sense.now))) → ⊥) }
{
    let left = model_without(alloc, kept, stretch)?;
    match sense.get() {
        Sense::Stating(own) => {
            if own.is_empty() {
                return Ok((Status::Asserted, left));
            }
            let known = known_beside(alloc, stretch, own)?;
            let names = live_names(alloc, lexicon)?;
            let verdict = judged(alloc, known, &names, model_of(&left, kept), budget)?;
            let (status, model) = standing_by(verdict);
            Ok((status, kept_by(alloc, model, left)?))
        }
        Sense::Outside(cause) => Ok((Status::Outside(*cause), left)),
        Sense::Asking(_) => Ok((Status::Question, left)),
        Sense::AskingOutside(cause) => Ok((Status::QuestionOutside(*cause), left)),
    }
}

// The kept interpretation as a model of what is known without a stretch of sentences; none where they state nothing, so that the kept
// model is one.
fn model_without(
    alloc: Global,
    kept: &Keeping,
    stretch: &Stretch<'_>,
) -> Result<Option<Keeping>, Memory>
    requires there { IsThere stretch.now }
    requires known { kept_claims kept.now ≡ known_with stretch.now }
    ensures interp { IfOk result (λ left. kept_interp (unwrap_or left kept.now) ≡ kept_interp kept.now) }
    ensures claims { IfOk result (λ left. kept_claims (unwrap_or left kept.now) ≡ known_beside stretch.now []) }
{
    let gone = span_of(stretch, kept.axioms().len());
    if gone.count == 0 {
        return Ok(None);
    }
    let known = known_beside(alloc, stretch, &Axioms::new(alloc))?;
    let interp = kept.shared()?;
    match CheckedModel::new(kept.interp().copy()?, known) {
        Ok(model) => Ok(Some(Keeping::sharing(model, interp))),
        Err(_) => unreachable!(),
    }
}

// What is known with these axioms in place of those of a stretch of sentences.
fn known_beside(alloc: Global, stretch: &Stretch<'_>, own: &Axioms) -> Result<Axioms, Memory>
    requires { IsThere stretch.now }
    ensures { IfOk result (λ known. claims_of known ≡ known_beside stretch.now (claims_of own.now)) }
{
    let Stretch {
        articles,
        senses,
        place,
        from,
        to,
    } = *stretch;
    known_around(alloc, articles, senses, place, from, own, to)
}

// The status that a verdict gives, and its model.
fn standing_by(verdict: Verdict<CheckedModel>) -> (Status, Option<CheckedModel>)
    ensures status { result.0 ≡ status_in verdict }
    ensures model { result.1 ≡ model_in verdict }
{
    match verdict {
        Verdict::Consistent(model) => (Status::Asserted, Some(model)),
        Verdict::Inconsistent(_) => (Status::RedContradiction, None),
        Verdict::Spent(_) => (Status::RedBudget, None),
    }
}

// The model that is left, or else the kept one.
fn model_of<'a>(left: &'a Option<Keeping>, kept: &'a Keeping) -> &'a CheckedModel
    ensures { result.now ≡ unwrap_or left.now kept.now }
{
    match left {
        Some(left) => left.model(),
        None => kept.model(),
    }
}

// The model that is to be kept: the one that was found, or else the one that is left, if there is one.
fn kept_by(
    alloc: Global,
    model: Option<CheckedModel>,
    left: Option<Keeping>,
) -> Result<Option<Keeping>, Memory>
    ensures { IfOk result (λ made. (kept : TheModel) → unwrap_or made kept ≡ unwrap_or model (unwrap_or left kept)) }
{
    match model {
        Some(model) => Ok(Some(Keeping::new(alloc, model)?)),
        None => Ok(left),
    }
}
