// What the thirty labels ask of the rules that have them.
ghost use Rattle.std.specs.Prelude.{◌≡◌};
ghost use Rattle.codeco_checked.specs.Labels as labels;

use codeco_terms::Label;

/// What the phrases of a category mean, in a grammar with labels.
#[derive(Clone, Copy, Debug, PartialEq, Eq)]
pub enum Kind {
    /// A whole text, which is a statement or a question.
    Text,
    /// A sentence, whose meaning is a structure.
    Sentence,
    /// A verb phrase, whose meaning is a structure on a term.
    VerbPhrase,
    /// A noun phrase, which is a term and a meaning around a structure.
    NounPhrase,
    /// A noun with what is said of it: a referent and a structure.
    NounBar,
    /// A question, which is a structure and the referent that is asked for.
    Question,
    /// A phrase without meaning.
    Mark,
}

/// The kinds that the head of a rule may have.
#[derive(Clone, Copy, Debug)]
pub enum Heads {
    /// This kind.
    Only(Kind),
    /// A sentence or a verb phrase.
    Clauses,
    /// Any kind but a text and a mark.
    Meanings,
}

/// The children with a meaning that a rule has, from left to right.
#[derive(Clone, Copy, Debug)]
pub enum Children {
    /// None.
    No,
    /// One of this kind.
    One(Kind),
    /// One of this kind, or none.
    Maybe(Kind),
    /// One of each of the two kinds.
    Two(Kind, Kind),
    /// One of the head's kind.
    Alike,
    /// Two of the head's kind.
    TwoAlike,
}

/// The words that a rule has: its preterminals, from left to right.
#[derive(Clone, Copy, Debug)]
pub enum Words {
    /// None.
    No,
    /// A name.
    Name,
    /// A noun.
    Noun,
    /// The word before `of`.
    Of,
    /// A verb.
    Verb,
    /// A verb, an adjective or the word before `of`.
    Relation,
    /// A verb and then a noun.
    VerbThenNoun,
    /// A verb, behind the children.
    VerbBehind,
    /// Any words, also none.
    Any,
}

/// What a label asks of a rule: the kinds of its head, its children, its words, whether it introduces one referent or
/// none, and whether it refers back once or not at all.
#[derive(Clone, Copy, Debug)]
pub struct LabelRow {
    pub heads: Heads,
    pub children: Children,
    pub words: Words,
    pub introduces: bool,
    pub refers: bool,
}

fn row(heads: Heads, children: Children, words: Words) -> LabelRow
    ensures { result ≡ labels.plain heads children words }
{
    LabelRow {
        heads,
        children,
        words,
        introduces: false,
        refers: false,
    }
}

fn introducing(heads: Heads, children: Children, words: Words) -> LabelRow
    ensures { result ≡ labels.introducing heads children words }
{
    LabelRow {
        heads,
        children,
        words,
        introduces: true,
        refers: false,
    }
}

fn referring(heads: Heads, children: Children, words: Words) -> LabelRow
    ensures { result ≡ labels.referring heads children words }
{
    LabelRow {
        heads,
        children,
        words,
        introduces: false,
        refers: true,
    }
}

/// What a label asks of a rule.
pub fn label_row(label: Label) -> LabelRow
    ensures { result ≡ labels.label_row label }
{
    use Children::{Alike, Maybe, One, Two, TwoAlike};
    use Heads::{Clauses, Meanings, Only};
    use Kind::{Mark, NounBar, NounPhrase, Question, Sentence, Text, VerbPhrase};
    match label {
        Label::Statement => row(Only(Text), One(Sentence), Words::No),
        Label::Ask => row(Only(Text), One(Question), Words::No),
        Label::If => row(Only(Sentence), Two(Sentence, Sentence), Words::No),
        Label::Say => row(Only(Sentence), Two(NounPhrase, VerbPhrase), Words::No),
        Label::And => row(Clauses, TwoAlike, Words::No),
        Label::Or => row(Clauses, TwoAlike, Words::No),
        Label::Pass => row(Meanings, Alike, Words::No),
        Label::Not => row(Only(VerbPhrase), One(VerbPhrase), Words::No),
        Label::Does => row(Only(VerbPhrase), One(NounPhrase), Words::Relation),
        Label::Done => row(Only(VerbPhrase), One(NounPhrase), Words::Verb),
        Label::Class => row(Only(VerbPhrase), Maybe(VerbPhrase), Words::Noun),
        Label::Top => row(Only(VerbPhrase), Children::No, Words::No),
        Label::Same => row(Only(VerbPhrase), One(NounPhrase), Words::No),
        Label::Only => introducing(Only(VerbPhrase), Children::No, Words::VerbThenNoun),
        Label::Gap => row(Only(VerbPhrase), One(NounPhrase), Words::Verb),
        Label::Name => introducing(Only(NounPhrase), Children::No, Words::Name),
        Label::Refer => referring(Only(NounPhrase), Children::No, Words::Any),
        Label::Var => introducing(Only(NounPhrase), Children::No, Words::No),
        Label::Noun => introducing(Only(NounBar), Maybe(VerbPhrase), Words::Noun),
        Label::Part => introducing(Only(NounBar), One(NounPhrase), Words::Of),
        Label::Some => row(Only(NounPhrase), One(NounBar), Words::No),
        Label::Every => row(Only(NounPhrase), One(NounBar), Words::No),
        Label::No => row(Only(NounPhrase), One(NounBar), Words::No),
        Label::Something => introducing(Only(NounPhrase), Maybe(VerbPhrase), Words::No),
        Label::Everything => introducing(Only(NounPhrase), Maybe(VerbPhrase), Words::No),
        Label::Nothing => introducing(Only(NounPhrase), Maybe(VerbPhrase), Words::No),
        Label::What => introducing(Only(Question), One(VerbPhrase), Words::No),
        Label::Which => row(Only(Question), Two(NounBar, VerbPhrase), Words::No),
        Label::Whichobj => row(Only(Question), Two(NounBar, NounPhrase), Words::VerbBehind),
        Label::Mark => row(Only(Mark), Children::No, Words::No),
    }
}
