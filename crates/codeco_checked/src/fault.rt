// Why a grammar is refused.
ghost use Rattle.std.specs.Prelude.{◌≡◌};
ghost use Rattle.codeco_checked.specs.declared.fault.GrammarFault.TheVariants as fault;

use wiki_base::Memory;

/// What is wrong with the text of a grammar: the fault of least number that holds, at its first place.
/// The number of a rule counts from 1 in the order of the text.
#[derive(Clone, Copy, Debug, PartialEq, Eq)]
pub enum GrammarFault {
    /// 1: no sentence of the notation has the text's bytes up to and with this one; or the text goes on to a sentence
    /// and is none, and this is its length.
    Syntax(u32),
    /// 2: a limit is passed in this rule. 0 for the text's size and for the declarations, 1 for the features of a
    /// category, 501 for the number of rules.
    TooLarge(u32),
    /// 3: this rule writes a feature that has no declaration.
    Undeclared(u32),
    /// 4: this rule writes a value or a variable that its feature doesn't have, a feature twice in a category, or a
    /// feature that the words of a preterminal don't give; 0 for a feature declared twice or with one atom twice.
    BadValue(u32),
    /// 5: this rule has no terminal, preterminal or category in its body.
    EmptyRule(u32),
    /// 6: this rule's head reaches itself through what stands first in rules.
    LeftRecursion(u32),
    /// 7: a variable stands marked and unmarked in one reference of this rule.
    TakenVariable(u32),
    /// 8: this rule's label doesn't fit the labels of the others.
    LabelKind(u32),
    /// 9: no rule has the head `text`.
    NoStart,
    /// An allocation was refused.
    Memory,
}

impl From<Memory> for GrammarFault {
    ghost from_gives = { λ _ e. e ≡ fault.Memory };

    fn from(_: Memory) -> Self {
        GrammarFault::Memory
    }
}
