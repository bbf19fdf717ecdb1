// Steps, clashes, and trees of them.
use lists::List;
use wiki_base::WordId;

/// The rules, in the order in which they are looked for. docs/REASONING.md has the table.
#[derive(Clone, Copy, Debug, PartialEq, Eq)]
pub enum Rule {
    And,
    Unfold,
    All,
    Trans,
    Value,
    Unit,
    Or,
    Some,
}

/// A rule that is applied at a node for a class of its label.
#[derive(Clone, Copy, Debug, PartialEq, Eq)]
pub struct Step {
    pub rule: Rule,
    pub node: u64,
    /// The class's place in the label.
    pub class: u64,
    /// The neighbour that `Rule::All` or `Rule::Trans` adds to, and 0 for every other rule.
    pub other: u64,
}

/// A contradiction of a branch.
#[derive(Clone, Copy, Debug, PartialEq, Eq)]
pub enum Clash {
    /// A node, the place of a class word in its label, and the place of that word's complement.
    Pair(u64, u64, u64),
    /// A node, and the place of the complement of everything in its label.
    NoThing(u64, u64),
    /// A node, the place of the complement of a value in its label, and the place of an edge by which the name's node
    /// is a neighbour.
    NoValue(u64, u64, u64),
    /// Two names that are different and have one representative.
    Names(WordId, WordId),
}

/// A tree that shows that each branch of knowledge is closed: a clash, or a step with one tree for each of its choices.
#[derive(Drop)]
pub enum Closed {
    Clash(Clash),
    Step(Step, List<Closed>),
}
