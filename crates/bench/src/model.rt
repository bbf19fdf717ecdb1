// Checks an interpretation of a given size against axioms that are drawn by a rule. With the word `time` it also tells
// how much processor time the check took.

use crate::fault::Fault;
use crate::sentences::{NAMES, NOUNS, VERBS, Words, axioms, drawn, verb};
use logic_terms::{Axiom, Axioms};
use owl_eval::{Interp, is_model};
use std::alloc::Global;
use std::time::CpuClock;
use wiki_base::WordId;

const SENTENCES: u32 = 2_500;

const ELEMENTS: u64 = 100;

const WORDS: Words = Words {
    first_noun: 1,
    first_name: 21,
};

const PAIRS_OF_A_VERB: usize = 100;

fn element_of(name: WordId) -> u64 {
    u64::from(name.0) * 5 % ELEMENTS
}

// The pairs that the axioms tell of a verb, and others up to the number wanted.
fn pairs(alloc: Global, axioms: &Axioms, verb: WordId) -> Result<Vec<(u64, u64)>, Fault> {
    let mut made = Vec::new(alloc);
    for place in 0..axioms.len() {
        if let Axiom::Related(role, from, to) = axioms.get(place) {
            if role.id == verb && made.len() < PAIRS_OF_A_VERB {
                made.push((element_of(*from), element_of(*to)))?;
            }
        }
    }
    let mut state = verb.0;
    for _ in made.len()..PAIRS_OF_A_VERB {
        let from = drawn(state);
        state = drawn(from);
        made.push((u64::from(from) % ELEMENTS, u64::from(state) % ELEMENTS))?;
    }
    Ok(made)
}

// An interpretation in which every axiom holds, since every class has every element.
fn interp(alloc: Global, axioms: &Axioms) -> Result<Interp, Fault> {
    let mut names = Vec::new(alloc);
    for number in 0..NAMES {
        names.push((WORDS.name(number), element_of(WORDS.name(number))))?;
    }
    let mut classes = Vec::new(alloc);
    for number in 0..NOUNS {
        let everything: Vec<u64> = (0..ELEMENTS).collect(alloc)?;
        classes.push((WORDS.noun(number), everything))?;
    }
    let mut relations = Vec::new(alloc);
    for number in 0..VERBS {
        relations.push((verb(number), pairs(alloc, axioms, verb(number))?))?;
    }
    if Interp::fits(ELEMENTS, &names, &classes, &relations) {
        Ok(Interp::new(alloc, ELEMENTS, names, classes, relations)?)
    } else {
        Err(Fault::Lists)
    }
}

pub(crate) fn measure(rt: &HostRuntime, timed: bool) -> Result<(), Fault> {
    let alloc = rt.alloc();
    let axioms = axioms(alloc, WORDS, SENTENCES, 7)?;
    let interp = interp(alloc, &axioms)?;
    let start = rt.thread_cpu_time()?;
    let answer = is_model(&interp, &axioms);
    let took = rt.thread_cpu_time()?.saturating_sub(start);
    let count = axioms.len();
    let pairs = PAIRS_OF_A_VERB * VERBS as usize;
    println!(rt; "{count} axioms over {ELEMENTS} elements and {pairs} pairs: {answer}")?;
    if timed {
        let micros = took.as_micros();
        println!(rt; "{micros} microseconds")?;
    }
    Ok(())
}
