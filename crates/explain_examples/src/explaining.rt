// Parts as they are written.
ghost use Rattle.std.specs.Prelude.{All, IfOk, IsTrue};
ghost use Rattle.logic_terms.specs.Plain.{are_plain};
ghost use Rattle.absorb.specs.Mentioned.{are_over};
ghost use Rattle.explain.specs.Answers.{claims_in};

use explain::{Part, Why, explain};
use lists::List;
use logic_terms::Names;
use reasoner_examples::{are_fit, read};
use std::alloc::Global;
use std::test::Fail;
use wiki_base::WordId;

// The parts of texts in the notation of `read`, one sentence in each.
fn parts_of(alloc: Global, names: &Names, texts: &[&str]) -> Result<List<Part>, Fail>
    ensures over { IfOk result (λ parts. All (λ claims. IsTrue (are_over names.now claims)) (claims_in parts)) }
    ensures plain { IfOk result (λ parts. All (λ claims. IsTrue (are_plain claims)) (claims_in parts)) }
{
    let mut parts = List::new(alloc);
    for text in texts {
        let axioms = read(alloc, *text)?;
        if !are_fit(names, &axioms) {
            return Err("fit axioms".into());
        }
        parts.push(Part {
            article: WordId(1),
            at: 0,
            axioms,
        })?;
    }
    Ok(parts)
}

/// Why the parts of these texts contradict each other.
pub fn explained(alloc: Global, names: &Names, texts: &[&str], budget: u64) -> Result<Why, Fail> {
    let parts = parts_of(alloc, names, texts)?;
    Ok(explain(alloc, parts.as_slice(), names, budget)?)
}
