// Models that show that no part can be left out.
ghost use Rattle.std.specs.Prelude.{◌≡◌, ◌++◌, [], length, IfOk};
ghost use Rattle.std.specs.List.{AllZip};
ghost use Rattle.logic_terms.specs.Shown.{claims_of};
ghost use Rattle.logic_terms.specs.Reading.{IsModel};
ghost use Rattle.owl_eval.specs.Checked.{kept_interp, kept_claims};
ghost use Rattle.reasoner.specs.Verdicts.{IsFiniteModel};
ghost use Rattle.explain.specs.Answers.{claims_in};
ghost use Rattle.explain.specs.Reasons.{stated_at, without};
ghost use Rattle.explain.specs.Narrow.{AreShown};

use crate::gathering::{gathered, others};
use crate::part::Part;
use lists::List;
use logic_terms::Axioms;
use owl_eval::{CheckedModel, Interp};
use std::alloc::Global;
use wiki_base::Memory;

// The checked model of an interpretation and axioms that it is a model of.
fn checked(interp: Interp, axioms: Axioms) -> CheckedModel
    requires { IsModel interp (claims_of axioms) }
    ensures interp { kept_interp result ≡ interp }
    ensures axioms { kept_claims result ≡ claims_of axioms }
{
    CheckedModel::new(interp, axioms).unwrap()
}

// The checked model of the parts but for one.
fn model_without(
    alloc: Global,
    parts: &[Part],
    kept: &[usize],
    place: usize,
    shown: &Interp,
) -> Result<CheckedModel, Memory>
    requires { IsFiniteModel shown.now (stated_at (claims_in parts.now) (without place kept.now)) }
    ensures axioms { IfOk result (λ m. kept_claims m ≡ stated_at (claims_in parts.now) (without place kept.now)) }
{
    let left = others(alloc, kept, place)?;
    let axioms = gathered(alloc, parts, left.as_slice())?;
    Ok(checked(shown.copy()?, axioms))
}

// Of each kept part the checked model of the others.
pub(crate) fn models(
    alloc: Global,
    parts: &[Part],
    kept: &[usize],
    shown: &[Interp],
) -> Result<List<CheckedModel>, Memory>
    requires shown { AreShown (claims_in parts.now) kept.now [] shown.now }
    requires long { length shown.now ≡ length kept.now }
    ensures { IfOk result (AllZip (λ place m. kept_claims m ≡ stated_at (claims_in parts.now) (without place kept.now)) kept.now) }
{
    let mut models = List::new(alloc);
    for index in 0..kept.len() {
        models.push(model_without(alloc, parts, kept, kept[index], &shown[index])?)?;
    }
    Ok(models)
}
