// Where a reading stands.

/// For what a category stands in a rule.
#[derive(Clone, Copy, Debug, PartialEq, Eq)]
pub enum Role {
    Head,
    Preterminal,
    Sub,
    Forward,
    Strong,
    /// a positive pattern after `<`
    Positive,
    /// a negative pattern
    Negative,
    /// a pattern after `/<`
    Absent,
}

/// How much of a category was read.
#[derive(Clone, Copy, Debug, PartialEq, Eq)]
pub enum Part {
    /// nothing: its name comes
    Name,
    /// its name
    Named,
    /// up to `(` or `,`: a feature's name comes
    Feature,
    /// up to a feature's name: `:` comes
    Colon,
    /// up to `:`: a term comes
    Term,
    /// up to `?`: a variable comes
    Taken,
    /// up to a term: `,` or `)` comes
    Next,
    /// up to `)`
    Whole,
}

/// Between which symbols a reading stands.
#[derive(Clone, Copy, Debug, PartialEq, Eq)]
pub enum Spot {
    /// between declarations and rules
    Items,
    /// after `{`
    LabelName,
    /// after a label
    LabelEnd,
    /// after `}`
    RuleHead,
    /// after `feature`
    FeatureName,
    /// after the name of a feature that is declared
    FeatureColon,
    /// after its `:`
    FeatureValue,
    /// after an atom
    AtomNext,
    /// after `,` between atoms
    AtomName,
    /// after `word` or `position`
    FeatureEnd,
    /// in a category
    Category(Part, Role),
    /// after a head
    Arrow,
    /// between the elements of a body
    Body,
    /// after `#`
    PositionName,
    /// after `<`
    BackPattern,
    /// after a positive pattern
    Positives,
    /// after a negative pattern
    Negatives,
    /// after `/<`
    AbsentPattern,
    /// after a pattern of `/<`
    Absents,
}

/// The words that may come next.
#[derive(Clone, Copy, Debug, PartialEq, Eq)]
pub enum Wanted {
    Nothing,
    /// `feature`, or a head
    Item,
    Identifier,
    /// `word`, `position` or an atom
    Value,
    Label,
    Kind,
    Variable,
    /// an atom or a variable
    Term,
}
