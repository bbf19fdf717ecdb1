// Finds the least skeletons of sentences, by the table of `chart_trees` and by the plain listing of `derivations`. With
// the word `time` it tells how much processor time each sentence took by either; the listing is tried then alone.

use crate::fault::Fault;
use crate::words::{lexicon_of, tokens_of};
use ace_grammar::built_in;
use chart_trees::least_of;
use codeco_checked::CheckedGrammar;
use derivations::plain_least;
use lexicon::{Kind, Lexicon};
use std::time::CpuClock;

const WORDS: [(Kind, &str); 20] = [
    (Kind::Name, "Mary"),
    (Kind::Name, "Bill"),
    (Kind::Name, "Germany"),
    (Kind::Name, "Switzerland"),
    (Kind::Name, "Bern"),
    (Kind::Name, "Zurich"),
    (Kind::Name, "Turicum"),
    (Kind::Noun, "cat"),
    (Kind::Noun, "dog"),
    (Kind::Noun, "man"),
    (Kind::Noun, "country"),
    (Kind::Noun, "city"),
    (Kind::Noun, "person"),
    (Kind::Noun, "parent"),
    (Kind::Noun, "unicorn"),
    (Kind::Noun, "sheep"),
    (Kind::Verb, "see"),
    (Kind::Verb, "own"),
    (Kind::Verb, "border"),
    (Kind::Verb, "know"),
];

const SENTENCES: [&str; 28] = [
    "Switzerland borders Germany.",
    "Switzerland is a country.",
    "Which countries border Germany?",
    "If Mary sees no dog that Bill owns then it sees Mary.",
    "Mary sees a cat and sees it.",
    "Every man owns a dog.",
    "If X borders Y then Y borders X.",
    "If X borders Y and Y borders Z then X borders Z.",
    "Which sheep does Mary see?",
    "Every man owns only dogs.",
    "Mary owns no dog.",
    "Mary owns a dog.",
    "Mary owns a dog or sees a cat.",
    "Mary does not see Bill.",
    "Mary is something.",
    "Every man who owns a dog sees the dog.",
    "Every man sees itself.",
    "A man owns a dog.",
    "Every man is Mary.",
    "No city is a country.",
    "Bern is a city.",
    "Every person knows a parent that is a person.",
    "Everything that knows a parent knows Mary.",
    "Zurich is Turicum.",
    "Zurich is not Turicum.",
    "Nothing is something.",
    "Mary sees something that sees something that sees something that sees something that sees something that sees a cat.",
    "Mary sees something that sees something that sees something that sees something that sees something that sees something that sees something that sees something that sees something that sees something that sees something that sees something that sees Bill.",
];

// Of the sentences, those that the listing is timed on: it is exponential.
const LISTED: usize = 27;

// Tells the text, if it is a sentence, and how many microseconds that took where it is timed.
fn run(
    rt: &HostRuntime,
    grammar: &CheckedGrammar,
    lexicon: &Lexicon,
    text: &str,
    timed: bool,
) -> Result<(), Fault> {
    let tokens = tokens_of(rt.alloc(), grammar, text)?;
    let start = rt.thread_cpu_time()?;
    let least = least_of(rt.alloc(), grammar, lexicon, &tokens)?;
    let took = rt.thread_cpu_time()?.saturating_sub(start).as_micros();
    if least.is_none() {
        return Err(Fault::Words);
    }
    println!(rt; "{text}")?;
    if timed {
        let count = tokens.len();
        println!(rt; "  {count} tokens: {took} microseconds")?;
    }
    Ok(())
}

// Tells how many microseconds the listing of a sentence's derivations took.
fn list(
    rt: &HostRuntime,
    grammar: &CheckedGrammar,
    lexicon: &Lexicon,
    text: &str,
) -> Result<(), Fault> {
    let tokens = tokens_of(rt.alloc(), grammar, text)?;
    let start = rt.thread_cpu_time()?;
    let least = plain_least(rt.alloc(), grammar, lexicon, &tokens)?;
    let took = rt.thread_cpu_time()?.saturating_sub(start).as_micros();
    if least.is_none() {
        return Err(Fault::Words);
    }
    println!(rt; "{text}")?;
    println!(rt; "  {took} microseconds by listing")?;
    Ok(())
}

pub(crate) fn measure(rt: &HostRuntime, timed: bool) -> Result<(), Fault> {
    let grammar = built_in(rt.alloc())?;
    let lexicon = lexicon_of(rt.alloc(), &grammar, &WORDS)?;
    for text in SENTENCES {
        run(rt, &grammar, &lexicon, text, timed)?;
    }
    if timed {
        for text in &SENTENCES[..LISTED] {
            list(rt, &grammar, &lexicon, text)?;
        }
    }
    Ok(())
}
