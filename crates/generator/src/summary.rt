// What the replies to a generated wiki add up to.
ghost use Rattle.std.specs.Prelude.{◌≡◌, ◌+◌, IfOk, OnOk};
ghost use Rattle.std.specs.String.{string_bytes};
ghost use Rattle.generator.specs.Summary as summing;

use std::alloc::Global;
use wiki_base::{Memory, Text8};
use wiki_talk::{Reply, SentenceView, Status};

/// How many words, sentences by their status, answers and unknown names there were.
#[derive(Clone, Copy, Debug, PartialEq, Eq)]
pub struct Summary {
    pub words: u64,
    pub sentences: u64,
    pub asserted: u64,
    /// Sentences that contradict the others, or for which the budget was spent.
    pub red: u64,
    pub outside: u64,
    pub questions: u64,
    pub answers: u64,
    pub unknown: u64,
}

fn sum(one: u64, other: u64) -> Result<u64, Memory>
    ensures { IfOk result (λ total. total ≡ one + other) }
{
    one.checked_add(other).ok_or(Memory)
}

impl Summary {
    /// Nothing was replied yet.
    pub fn new() -> Summary
        ensures { result ≡ summing.nothing }
    {
        Summary {
            words: 0,
            sentences: 0,
            asserted: 0,
            red: 0,
            outside: 0,
            questions: 0,
            answers: 0,
            unknown: 0,
        }
    }

    /// With a reply more. `Memory` stands for a number beyond 64 bits.
    pub fn with_reply(self, reply: &Reply) -> Result<Summary, Memory>
        ensures { IfOk result (λ summary. summary ≡ summing.with_reply self reply.now) }
    {
        match reply {
            Reply::Word => Ok(Summary {
                words: sum(self.words, 1)?,
                ..self
            }),
            Reply::Add { status, .. } => self.with_status(*status),
            Reply::Read { sentences, .. } => self.with_answers(sentences.as_slice()),
            _ => Ok(self),
        }
    }

    fn with_status(self, status: Status) -> Result<Summary, Memory>
        ensures { IfOk result (λ summary. summary ≡ summing.with_status self status) }
    {
        let counted = Summary {
            sentences: sum(self.sentences, 1)?,
            ..self
        };
        match status {
            Status::Asserted => Ok(Summary {
                asserted: sum(self.asserted, 1)?,
                ..counted
            }),
            Status::RedContradiction | Status::RedBudget => Ok(Summary {
                red: sum(self.red, 1)?,
                ..counted
            }),
            Status::Outside(_) => Ok(Summary {
                outside: sum(self.outside, 1)?,
                ..counted
            }),
            Status::Question | Status::QuestionOutside(_) => Ok(Summary {
                questions: sum(self.questions, 1)?,
                ..counted
            }),
            Status::Retracted => Ok(counted),
        }
    }

    fn with_answers(self, sentences: &[SentenceView]) -> Result<Summary, Memory>
        ensures { IfOk result (λ summary. summary ≡ summing.with_answers self sentences.now) }
    {
        let mut summary = self;
        for sentence in sentences {
            summary = summary.with_sentence(sentence)?;
        }
        Ok(summary)
    }

    fn with_sentence(self, sentence: &SentenceView) -> Result<Summary, Memory>
        ensures { IfOk result (λ summary. summary ≡ summing.with_sentence self sentence.now) }
    {
        Ok(Summary {
            answers: sum(self.answers, sentence.answers.len() as u64)?,
            unknown: sum(self.unknown, sentence.unknown.len() as u64)?,
            ..self
        })
    }

    /// The eight lines that tell it.
    pub fn text(&self, alloc: Global) -> Result<Text8, Memory>
        ensures { IfOk result (λ text. text ≡ summing.summary_text self.now) }
    {
        let said = self.said(alloc)?;
        let answered = self.answered(alloc)?;
        Ok(Text8::from_string(format!(in alloc; "{said}{answered}")?))
    }

    fn said(&self, alloc: Global) -> Result<String, Memory>
        ensures { IfOk result (λ text. string_bytes text ≡ summing.said_text self.now) }
    {
        let words = self.words;
        let sentences = self.sentences;
        let asserted = self.asserted;
        let red = self.red;
        Ok(format!(in alloc;
            "words {words}\nsentences {sentences}\nasserted {asserted}\nred {red}\n"
        )?)
    }

    fn answered(&self, alloc: Global) -> Result<String, Memory>
        ensures { IfOk result (λ text. string_bytes text ≡ summing.answered_text self.now) }
    {
        let outside = self.outside;
        let questions = self.questions;
        let answers = self.answers;
        let unknown = self.unknown;
        Ok(format!(in alloc;
            "outside {outside}\nquestions {questions}\nanswers {answers}\nunknown {unknown}\n"
        )?)
    }
}
