// Interpretations that were checked to be models.
ghost use Rattle.std.specs.Prelude.{◌≡◌, ◌≤◌, true, ◌↔◌, IsTrue, IsOk, IfOk, IfErr, OnOk, OnErr, length, if◌then◌else◌};
ghost use Rattle.std.specs.List.{insert_slice, remove_range};
ghost use Rattle.logic_terms.specs.Interpretation.{is_interpretation};
ghost use Rattle.logic_terms.specs.Shown.{claims_of};
ghost use Rattle.logic_terms.specs.Meaning.{all_hold};
ghost use Rattle.logic_terms.specs.Reading.{IsModel};

use crate::axioms::is_model;
use crate::beside::all_true_beside;
use crate::changes::changed_words;
use crate::interp::Interp;
use logic_terms::{Axiom, Axioms};
use std::mem;
use wiki_base::Memory;

/// An interpretation and axioms that it is a model of. Only `new` makes one, and it checks; `insert` checks what it adds.
#[derive(Drop)]
pub struct CheckedModel {
    interp: Interp,
    axioms: Axioms,
    pub ghost model: { all_hold interp (claims_of axioms) ≡ true },
}

impl CheckedModel {
    ghost use Rattle.owl_eval.specs.Checked.{kept_interp, kept_claims};

    /// The checked model of an interpretation and axioms, or both of them back where it is no model. It takes no memory.
    pub fn new(interp: Interp, axioms: Axioms) -> Result<CheckedModel, (Interp, Axioms)>
        ensures accepts { IsOk result ↔ IsModel interp (claims_of axioms) }
        ensures interp { IfOk result (λ made. kept_interp made ≡ interp) }
        ensures axioms { IfOk result (λ made. kept_claims made ≡ claims_of axioms) }
        ensures refuses { IfErr result (λ back. (back.0 ≡ interp) × (back.1 ≡ axioms)) }
    {
        if is_model(&interp, &axioms) {
            Ok(CheckedModel { interp, axioms })
        } else {
            Err((interp, axioms))
        }
    }

    /// The checked model of an interpretation and axioms, or both of them back where it is no model, by what is known of this one:
    /// where the interpretations have one size, an axiom isn't looked at again that stands at the same place in both, counted from
    /// the front or from the back, and to whose words both interpretations give the same. It takes memory for the words that
    /// changed; where that is refused, each axiom is looked at.
    pub fn grown(&self, interp: Interp, axioms: Axioms) -> Result<CheckedModel, (Interp, Axioms)>
        ensures accepts { IsOk result ↔ IsModel interp (claims_of axioms) }
        ensures interp { IfOk result (λ made. kept_interp made ≡ interp) }
        ensures axioms { IfOk result (λ made. kept_claims made ≡ claims_of axioms) }
        ensures refuses { IfErr result (λ back. (back.0 ≡ interp) × (back.1 ≡ axioms)) }
    {
        if self.are_true_in(&interp, &axioms) {
            Ok(CheckedModel { interp, axioms })
        } else {
            Err((interp, axioms))
        }
    }

    /// Whether its interpretation is a model of other axioms. Of these only those are looked at that don't stand at the same place
    /// in both, counted from the front or from the back. It takes no memory.
    pub fn is_model_of(&self, axioms: &Axioms) -> bool
        ensures { IsTrue result ↔ IsModel (kept_interp self.now) (claims_of axioms.now) }
    {
        all_true_beside(&self.interp, axioms, &self.axioms, &[])
    }

    // Whether axioms are true in an interpretation, by what is known of this model.
    fn are_true_in(&self, interp: &Interp, axioms: &Axioms) -> bool
        ensures exact { result ≡ all_hold interp.now (claims_of axioms.now) }
        ensures reading { IsTrue result ↔ IsModel interp.now (claims_of axioms.now) }
    {
        if self.interp.size() != interp.size() {
            return is_model(interp, axioms);
        }
        match changed_words(&self.interp, interp) {
            Ok(changed) => all_true_beside(interp, axioms, &self.axioms, changed.as_slice()),
            Err(_) => is_model(interp, axioms),
        }
    }

    /// The interpretation, a model of the axioms.
    pub fn interp(&self) -> &Interp
        ensures part { result.now ≡ kept_interp self.now }
        ensures model { IsModel result.now (kept_claims self.now) }
        ensures sound { IsTrue (is_interpretation result.now) }
    {
        self.interp.lent()
    }

    /// The axioms, which are true in the interpretation.
    pub fn axioms(&self) -> &Axioms
        ensures part { claims_of result.now ≡ kept_claims self.now }
        ensures model { IsModel (kept_interp self.now) (claims_of result.now) }
    {
        &self.axioms
    }

    /// An equal model in memory of its own. The axioms are not looked at again.
    pub fn copy(&self) -> Result<CheckedModel, Memory>
        ensures interp { IfOk result (λ copied. kept_interp copied ≡ kept_interp self.now) }
        ensures axioms { IfOk result (λ copied. kept_claims copied ≡ kept_claims self.now) }
    {
        let interp = self.interp.copy()?;
        let axioms = self.axioms.copy()?;
        Ok(CheckedModel { interp, axioms })
    }

    /// Puts axioms in at a place, if each of them is true in the interpretation, and answers whether they are. Those that are
    /// there already are not looked at. After any answer but true all is as before.
    pub fn insert(&mut self, at: usize, more: Axioms) -> Result<bool, Memory>
        requires { at ≤ length (kept_claims self.old) }
        ensures accepts { IfOk result (λ taken. IsTrue taken ↔ IsModel (kept_interp self.old) (claims_of more)) }
        ensures axioms { IfOk result (λ taken. kept_claims self.new
            ≡ (if taken then insert_slice (kept_claims self.old) at (claims_of more) else kept_claims self.old)) }
        ensures interp { kept_interp self.new ≡ kept_interp self.old }
        ensures err { OnErr result (kept_claims self.new ≡ kept_claims self.old) }
    {
        if !is_model(&self.interp, &more) {
            return Ok(false);
        }
        let none = Axioms::new(self.interp.allocator());
        let mut items = mem::replace(&mut self.axioms, none).into_vec();
        let grown = put_in(&mut items, at, more.into_vec());
        self.axioms = Axioms::from_vec(items);
        grown?;
        Ok(true)
    }

    /// Takes the axioms from a place to before another out. It takes no memory, and the others are not looked at.
    pub fn remove(&mut self, from: usize, to: usize)
        requires rises { from ≤ to }
        requires within { to ≤ length (kept_claims self.old) }
        ensures axioms { kept_claims self.new ≡ remove_range (kept_claims self.old) from to }
        ensures interp { kept_interp self.new ≡ kept_interp self.old }
    {
        let none = Axioms::new(self.interp.allocator());
        let mut items = mem::replace(&mut self.axioms, none).into_vec();
        take_out(&mut items, from, to);
        self.axioms = Axioms::from_vec(items);
    }
}

// Puts items in at a place. Where memory is refused, all stays.
fn put_in(items: &mut Vec<Axiom>, at: usize, mut more: Vec<Axiom>) -> Result<(), Memory>
    requires { at ≤ length items.old.items }
    ensures ok { OnOk result (items.new.items ≡ insert_slice items.old.items at more.items) }
    ensures err { OnErr result (items.new.items ≡ items.old.items) }
{
    let count = more.len();
    items.append(&mut more)?;
    items[at..].rotate_right(count);
    Ok(())
}

// Takes the items from a place to before another out.
fn take_out(items: &mut Vec<Axiom>, from: usize, to: usize)
    requires rises { from ≤ to }
    requires within { to ≤ length items.old.items }
    ensures { items.new.items ≡ remove_range items.old.items from to }
{
    let left = items.len() - (to - from);
    items[from..].rotate_left(to - from);
    items.truncate(left);
}
