// What an explanation is.
use lists::List;
use owl_eval::CheckedModel;
use tableau_rules::Closed;

/// Why parts of knowledge contradict each other.
#[derive(Drop)]
pub enum Why {
    /// These parts, by their places, have no model together, and without any one of them they have.
    Reason {
        kept: List<usize>,
        /// A closed tree of what their axioms are absorbed to.
        closed: Closed,
        /// Of each of them in order a model of the others.
        models: List<CheckedModel>,
    },
    /// All parts have this model.
    Consistent(CheckedModel),
    /// Whether the parts at these places have a model was not decided within the budget.
    Spent(List<usize>),
}
