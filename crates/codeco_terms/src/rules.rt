// Rules with their labels.

use crate::{Category, Elements};
use wiki_base::{Copied, List, Memory};

/// What a phrase of a rule means: the thirty labels.
#[derive(Clone, Copy, Debug, PartialEq, Eq)]
pub enum Label {
    Statement,
    Ask,
    If,
    Say,
    And,
    Or,
    Pass,
    Not,
    Does,
    Done,
    Class,
    Top,
    Same,
    Only,
    Gap,
    Name,
    Refer,
    Var,
    Noun,
    Part,
    Some,
    Every,
    No,
    Something,
    Everything,
    Nothing,
    What,
    Which,
    Whichobj,
    Mark,
}

/// A rule: a label or none, the head, whether the rule closes its scope, and the body.
#[derive(Drop)]
pub struct Rule {
    pub label: Option<Label>,
    pub head: Category,
    pub closing: bool,
    pub body: Elements,
}

impl Copied for Rule {
    fn copy(&self) -> Result<Self, Memory> {
        Ok(Rule {
            label: self.label,
            head: self.head.copy()?,
            closing: self.closing,
            body: self.body.copy()?,
        })
    }
}

/// The rules of a grammar. The rule with number n, from 1, stands at place n - 1.
pub type Rules = List<Rule>;
