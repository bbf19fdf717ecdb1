// What is asked.
use consequences::Consequences;
use logic_terms::{Class, Names};
use owl_eval::CheckedModel;

// Which of these names are in a class: the class and its complement in negation normal form, the kept model and what is known
// of its axioms, and the rule applications that the search for one name may take.
#[derive(Drop)]
pub(crate) struct Question<'q> {
    pub(crate) known: &'q Consequences,
    pub(crate) class: &'q Class,
    pub(crate) denial: &'q Class,
    pub(crate) kept: &'q CheckedModel,
    pub(crate) names: &'q Names,
    pub(crate) budget: u64,
}
