// The model that a wiki keeps.
ghost use Rattle.std.specs.Prelude.{◌≡◌, [], IfOk};
ghost use Rattle.owl_eval.specs.Checked.{kept_interp, kept_claims};
ghost use Rattle.wiki_parts.specs.Holding.{first_interpretation};

use logic_terms::Axioms;
use owl_eval::{CheckedModel, Interp};
use std::alloc::Global;
use wiki_base::Memory;

/// The model of no axioms, in which nothing holds of the one element.
pub fn first_model(alloc: Global) -> Result<CheckedModel, Memory>
    ensures interp { IfOk result (λ kept. kept_interp kept ≡ first_interpretation) }
    ensures axioms { IfOk result (λ kept. kept_claims kept ≡ []) }
{
    let interp = Interp::new(alloc, 1, Vec::new(alloc), Vec::new(alloc), Vec::new(alloc))?;
    match CheckedModel::new(interp, Axioms::new(alloc)) {
        Ok(kept) => Ok(kept),
        Err(_) => unreachable!(),
    }
}
