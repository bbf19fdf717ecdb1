// What became of a sentence.
ghost use Rattle.std.specs.Prelude.{◌≡◌};

use logic_terms::Cause;

/// What became of a sentence.
#[derive(Clone, Copy, Debug, PartialEq, Eq)]
pub enum Status {
    /// A statement whose axioms are in the knowledge.
    Asserted,
    /// A statement that a user took out of the knowledge.
    Retracted,
    /// A statement that contradicts the knowledge.
    RedContradiction,
    /// A statement of which the budget was spent before it was found whether it fits the knowledge.
    RedBudget,
    /// A statement that has no axioms.
    Outside(Cause),
    /// A question that asks for a class.
    Question,
    /// A question that asks for no class.
    QuestionOutside(Cause),
}

impl Status {
    ghost use Rattle.wiki_talk.specs.Statuses.{status_name, cause_in, is_question};

    /// The name that lines and pages tell.
    pub fn name(self) -> &'static str
        ensures { result.now ≡ status_name self }
    {
        match self {
            Status::Asserted => "asserted",
            Status::Retracted => "retracted",
            Status::RedContradiction => "contradiction",
            Status::RedBudget => "budget",
            Status::Outside(_) => "outside",
            Status::Question => "question",
            Status::QuestionOutside(_) => "question-outside",
        }
    }

    /// Whether the sentence is a question that asks for a class.
    pub fn is_question(self) -> bool
        ensures { result ≡ is_question self }
    {
        matches!(self, Status::Question)
    }

    /// Why the sentence has no axioms and asks for no class, if that is so.
    pub fn cause(self) -> Option<Cause>
        ensures { result ≡ cause_in self }
    {
        match self {
            Status::Outside(cause) | Status::QuestionOutside(cause) => Some(cause),
            _ => None,
        }
    }
}
