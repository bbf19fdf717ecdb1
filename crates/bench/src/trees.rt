// Checks the derivation trees of sentences like `Mary sees something that sees something.` of up to 40 tokens. With the
// word `time` it also tells how much processor time a check took.

ghost use Rattle.std.specs.Prelude.{◌≤◌, length};

use crate::fault::Fault;
use crate::words::{lexicon_of, tokens_of};
use ace_grammar::built_in;
use codeco_checked::CheckedGrammar;
use codeco_terms::Value;
use derivation_trees::{Binds, Places, Tree, Trees, check_tree};
use lexicon::{Kind, Lexicon};
use std::alloc::Global;
use std::time::CpuClock;
use wiki_base::{Memory, Tokens, WordId};

const WORDS: [(Kind, &str); 2] = [(Kind::Name, "Mary"), (Kind::Verb, "see")];

const CHECKS: u32 = 1_000;

const SG: Value = Value::Atom(0);

const MARY: Value = Value::Word(WordId(1));

// The tokens of the sentence with so many relative clauses.
fn tokens(alloc: Global, grammar: &CheckedGrammar, clauses: u16) -> Result<Tokens, Fault> {
    let mut text = String::from_str(alloc, "Mary sees something")?;
    for _ in 0..clauses {
        text.push_str(" that sees something")?;
    }
    text.push_str(".")?;
    tokens_of(alloc, grammar, &text)
}

// A node whose variables have these values.
fn node(alloc: Global, rule: u16, values: &[Value], children: Trees) -> Result<Tree, Fault> {
    let mut bound = Vec::new(alloc);
    for (variable, value) in (0..16u8).zip(values) {
        bound.push((variable, *value))?;
    }
    Ok(Tree {
        rule,
        values: Binds::from_vec(bound),
        found: Places::new(alloc),
        children,
    })
}

fn one(alloc: Global, child: Tree) -> Result<Trees, Fault> {
    let mut children = Trees::new(alloc);
    children.push(child)?;
    Ok(children)
}

fn two(alloc: Global, first: Tree, second: Tree) -> Result<Trees, Fault> {
    let mut children = one(alloc, first)?;
    children.push(second)?;
    Ok(children)
}

// The verb phrase of a subject, with the object that its verb has.
fn verb_phrase(alloc: Global, subject: Value, object: Tree) -> Result<Tree, Fault> {
    let object = node(alloc, 52, &[], one(alloc, object)?)?;
    node(alloc, 15, &[subject], one(alloc, object)?)
}

// The object, which sees the given one.
fn seeing(alloc: Global, subject: Value, object: Tree) -> Result<Tree, Fault> {
    let pronoun = node(alloc, 46, &[], Trees::new(alloc))?;
    let phrase = verb_phrase(alloc, subject, object)?;
    let clause = node(alloc, 44, &[subject], two(alloc, pronoun, phrase)?)?;
    let clauses = node(alloc, 38, &[subject], one(alloc, clause)?)?;
    node(alloc, 69, &[subject], one(alloc, clauses)?)
}

// The object of the sentence: the referent of clause n stands behind 3 n + 3 tokens.
fn object(alloc: Global, clauses: u16) -> Result<Tree, Fault> {
    let last = Value::Pos(3 * clauses.min(100) + 3);
    let mut object = node(alloc, 68, &[last], Trees::new(alloc))?;
    for clause in 0..clauses.min(100) {
        let subject = Value::Pos(3 * (clauses.min(100) - 1 - clause) + 3);
        object = seeing(alloc, subject, object)?;
    }
    Ok(object)
}

// The tree of the sentence with so many relative clauses.
fn sentence(alloc: Global, clauses: u16) -> Result<Tree, Fault> {
    let mary = Value::Pos(1);
    let name = node(alloc, 56, &[mary, MARY], Trees::new(alloc))?;
    let subject = node(alloc, 48, &[mary], one(alloc, name)?)?;
    let mut phrase = verb_phrase(alloc, mary, object(alloc, clauses)?)?;
    for rule in [13, 8] {
        phrase = node(alloc, rule, &[SG, mary], one(alloc, phrase)?)?;
    }
    let clause = node(alloc, 7, &[mary], two(alloc, subject, phrase)?)?;
    let statement = node(alloc, 3, &[], one(alloc, clause)?)?;
    node(alloc, 1, &[], one(alloc, statement)?)
}

// Whether each of many checks says that the tree derives the tokens.
fn checks(
    alloc: Global,
    grammar: &CheckedGrammar,
    lexicon: &Lexicon,
    tokens: &Tokens,
    tree: &Tree,
) -> Result<bool, Memory>
    requires { length tokens.now ≤ 40 }
{
    for _ in 0..CHECKS {
        if !check_tree(alloc, grammar, lexicon, tokens, tree)? {
            return Ok(false);
        }
    }
    Ok(true)
}

fn run(rt: &HostRuntime, clauses: u16, timed: bool) -> Result<(), Fault> {
    let alloc = rt.alloc();
    let grammar = built_in(alloc)?;
    let lexicon = lexicon_of(alloc, &grammar, &WORDS)?;
    let tokens = tokens(alloc, &grammar, clauses)?;
    let tree = sentence(alloc, clauses)?;
    let count = tokens.len();
    if count > 40 {
        return Err(Fault::Words);
    }
    let start = rt.thread_cpu_time()?;
    let answer = checks(alloc, &grammar, &lexicon, &tokens, &tree)?;
    let took = rt.thread_cpu_time()?.saturating_sub(start);
    println!(rt; "{count} tokens: {answer}")?;
    if timed {
        let micros = took.as_micros() / u128::from(CHECKS);
        println!(rt; "{micros} microseconds a check")?;
    }
    Ok(())
}

pub(crate) fn measure(rt: &HostRuntime, timed: bool) -> Result<(), Fault> {
    for clauses in [0, 2, 4, 8, 12] {
        run(rt, clauses, timed)?;
    }
    Ok(())
}
