// Whether what a file says has a finite model.
ghost use Rattle.std.specs.Prelude.{◌≡◌, ◌≤◌, [], IfOk, IsTrue, length};
ghost use Rattle.absorb.specs.Mentioned.{are_over};
ghost use Rattle.logic_terms.specs.Plain.{are_plain};
ghost use Rattle.logic_terms.specs.Shown.{claims_of};
ghost use Rattle.owl_eval.specs.Checked.{kept_interp, kept_claims};
ghost use Rattle.owl_intake.specs.Checked.{individuals, TellsVerdict, TellsCheck};

use crate::individuals::individuals;
use crate::input::MOST_BYTES;
use crate::lines::fault_line;
use logic_terms::Axioms;
use owl_eval::{CheckedModel, Interp};
use owl_grammar::read_owl;
use owl_reader::{OwlDoc, OwlFault};
use reasoner::{Verdict, verdict};
use std::alloc::Global;
use wiki_base::{Memory, Text8};

/// The line that tells whether what a file says has a finite model, or the first fault of the text. A search may take `budget` rule
/// applications.
pub fn check(alloc: Global, text: &[u8], budget: u64) -> Result<Text8, Memory>
    requires { length text.now ≤ MOST_BYTES }
    ensures { IfOk result (TellsCheck budget text.now) }
{
    match read_owl(alloc, text) {
        Ok(doc) => verdict_line(alloc, doc, budget),
        Err(fault) => fault_line(alloc, fault),
    }
}

// The line that tells whether the axioms of a file have a finite model.
fn verdict_line(alloc: Global, doc: OwlDoc, budget: u64) -> Result<Text8, Memory>
    requires over { IsTrue (are_over (individuals doc.entities) (claims_of doc.axioms)) }
    requires plain { IsTrue (are_plain (claims_of doc.axioms)) }
    ensures { IfOk result (TellsVerdict budget (claims_of doc.axioms) (individuals doc.entities)) }
{
    let names = individuals(alloc, &doc.entities)?;
    let kept = first_model(alloc)?;
    match verdict(alloc, doc.axioms, &names, &kept, budget)? {
        Verdict::Consistent(_) => Text8::from_str(alloc, "consistent\n"),
        Verdict::Inconsistent(_) => Text8::from_str(alloc, "inconsistent\n"),
        Verdict::Spent(_) => Text8::from_str(alloc, "budget\n"),
    }
}

// The model of no axioms, from which the search for one begins: nothing holds of its one element.
fn first_model(alloc: Global) -> Result<CheckedModel, Memory> {
    let interp = Interp::new(alloc, 1, Vec::new(alloc), Vec::new(alloc), Vec::new(alloc))?;
    match CheckedModel::new(interp, Axioms::new(alloc)) {
        Ok(kept) => Ok(kept),
        Err(_) => unreachable!(),
    }
}
