// Why a structure has no axioms.

/// Why a statement or a question is outside what the mapping to axioms covers.
#[derive(Clone, Copy, Debug, PartialEq, Eq)]
pub enum Cause {
    /// Two terms stand together in one condition that only one of them can roll up.
    Shared,
    /// The relations among the terms go round.
    Cycle,
    /// Some term is not reached from a name.
    NoRoot,
    /// Two terms are equated.
    Equality,
    /// A referent is used where nothing introduces it.
    Free,
}
