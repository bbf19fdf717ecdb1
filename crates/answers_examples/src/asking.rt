// Questions as they are written.
use answers::{Answers, ask};
use logic_terms::{Axiom, Axioms, Names};
use owl_eval::CheckedModel;
use reasoner_examples::are_fit;
use std::alloc::Global;
use std::test::Fail;

/// The answers to the class of a question's first axiom, which says of a name that it is in the class.
pub fn asked(
    alloc: Global,
    question: &Axioms,
    kept: &CheckedModel,
    names: &Names,
    budget: u64,
) -> Result<Answers, Fail> {
    if !are_fit(names, question) {
        return Err("a fit question".into());
    }
    if !are_fit(names, kept.axioms()) {
        return Err("fit axioms".into());
    }
    if question.is_empty() {
        return Err("a question".into());
    }
    match question.get(0) {
        Axiom::Member(class, _) => Ok(ask(alloc, class, kept, names, budget)?),
        _ => Err("a class and a name".into()),
    }
}
