// Whether there is a finite model.
use tableau_rules::{Branch, Closed};

/// Whether there is a finite model, with what shows it: how a search ends, and what is made of its end.
#[derive(Drop)]
pub enum Verdict<T> {
    /// There is one, as this shows: of a search a branch without clash to which no rule applies.
    Consistent(T),
    /// There is none, as this tree shows, which closes every branch.
    Inconsistent(Closed),
    /// The search's branch after as many rule applications as the budget allows, where it has not ended by then.
    Spent(Branch),
}
