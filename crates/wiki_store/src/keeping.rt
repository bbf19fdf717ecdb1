// The model that a wiki keeps, whose interpretation others share.
ghost use Rattle.std.specs.Prelude.{◌≡◌, ◌≤◌, ◌↔◌, IsTrue, IfOk, OnErr, length, unwrap_or, if◌then◌else◌};
ghost use Rattle.std.specs.List.{insert_slice, remove_range};
ghost use Rattle.logic_terms.specs.Interpretation.{is_interpretation};
ghost use Rattle.logic_terms.specs.Reading.{IsModel};
ghost use Rattle.logic_terms.specs.Shown.{claims_of};
ghost use Rattle.reasoner.specs.Verdicts.{IsFiniteModel};

use articles::Shared;
use lists::Copied;
use logic_terms::Axioms;
use owl_eval::{CheckedModel, Interp};
use std::alloc::Global;
use std::marker::Model;
use wiki_base::Memory;

// A checked model, and its interpretation once more, which what stood before a change shares. It is seen as the model.
#[derive(Drop)]
pub(crate) struct Keeping {
    model: CheckedModel,
    interp: Shared<Interp>,
}

impl Model for Keeping {
    ghost use Rattle.std.specs.Prelude.{◌≡◌};
    ghost use Rattle.owl_eval.specs.declared.checked.CheckedModel.{CheckedModel};
    ghost use Rattle.owl_eval.specs.contracts.checked.CheckedModel as checked;
    ghost use Rattle.owl_eval.specs.Checked.{kept_interp};

    ghost Value = { CheckedModel };

    ghost coded = { checked.the_row.coded };

    ghost view = { λ k. k.model };

    ghost invariant = { λ k. k.interp ≡ kept_interp k.model };
}

impl Keeping {
    ghost use Rattle.owl_eval.specs.Checked.{kept_interp, kept_claims};

    // A model whose interpretation nothing shares yet.
    pub(crate) fn new(alloc: Global, model: CheckedModel) -> Result<Keeping, Memory>
        ensures { IfOk result (λ kept. kept ≡ model) }
    {
        let interp = Shared::new(alloc, model.interp().copy()?)?;
        Ok(Keeping { model, interp })
    }

    // A model of an interpretation that others share. It takes no memory.
    pub(crate) fn sharing(model: CheckedModel, interp: Shared<Interp>) -> Keeping
        requires { kept_interp model ≡ interp }
        ensures { result ≡ model }
    {
        Keeping { model, interp }
    }

    // The interpretation, in the same memory.
    pub(crate) fn shared(&self) -> Result<Shared<Interp>, Memory>
        ensures { IfOk result (λ interp. interp ≡ kept_interp self.now) }
    {
        self.interp.copy()
    }

    // The model.
    pub(crate) fn model(&self) -> &CheckedModel
        ensures { result.now ≡ self.now }
    {
        &self.model
    }

    // Its interpretation.
    pub(crate) fn interp(&self) -> &Interp
        ensures part { result.now ≡ kept_interp self.now }
        ensures model { IsModel result.now (kept_claims self.now) }
        ensures sound { IsTrue (is_interpretation result.now) }
    {
        self.model.interp()
    }

    // Its axioms.
    pub(crate) fn axioms(&self) -> &Axioms
        ensures part { claims_of result.now ≡ kept_claims self.now }
        ensures model { IsModel (kept_interp self.now) (claims_of result.now) }
    {
        self.model.axioms()
    }

    // Puts axioms in at a place, if each of them is true in the interpretation, and answers whether they are.
    pub(crate) fn insert(&mut self, at: usize, more: Axioms) -> Result<bool, Memory>
        requires { at ≤ length (kept_claims self.old) }
        ensures accepts { IfOk result (λ taken. IsTrue taken ↔ IsModel (kept_interp self.old) (claims_of more)) }
        ensures axioms { IfOk result (λ taken. kept_claims self.new
            ≡ (if taken then insert_slice (kept_claims self.old) at (claims_of more) else kept_claims self.old)) }
        ensures interp { kept_interp self.new ≡ kept_interp self.old }
        ensures err { OnErr result (kept_claims self.new ≡ kept_claims self.old) }
    {
        self.model.insert(at, more)
    }

    // Takes the axioms from a place to before another out. It takes no memory.
    pub(crate) fn remove(&mut self, from: usize, to: usize)
        requires rises { from ≤ to }
        requires within { to ≤ length (kept_claims self.old) }
        ensures axioms { kept_claims self.new ≡ remove_range (kept_claims self.old) from to }
        ensures interp { kept_interp self.new ≡ kept_interp self.old }
        ensures finite { IsFiniteModel (kept_interp self.new) (kept_claims self.new) }
    {
        self.model.remove(from, to);
        let _ = self.interp();
    }

    // Another model in its place, if there is one.
    pub(crate) fn exchange(&mut self, other: Option<Keeping>)
        ensures { self.new ≡ unwrap_or other self.old }
    {
        if let Some(other) = other {
            *self = other;
        }
    }
}
