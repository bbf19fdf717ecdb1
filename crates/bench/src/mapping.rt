// Maps the structures of two sentences of nearly forty tokens and prints their axioms. With the word `time` it also tells
// how much processor time that took.

use crate::fault::Fault;
use ace_to_owl::{Mapped, map_statement};
use lists::List;
use logic_terms::{Cond, Conds, Drs, Referents, Thing};
use mapping_examples::{CAT, DOG, Few, MAN, MARY, OWN, SEE};
use owl_text::print_axiom;
use std::alloc::Global;
use std::time::CpuClock;
use wiki_base::{Text8, WordId};

const LINKS: u16 = 9;

const RUNS: u64 = 1_000;

fn noun(referent: u16) -> WordId {
    match referent % 3 {
        0 => DOG,
        1 => CAT,
        _ => MAN,
    }
}

fn verb(referent: u16) -> WordId {
    if referent % 2 == 0 { OWN } else { SEE }
}

// `Mary sees a cat and owns a man and ..`
fn joined(alloc: Global) -> Result<Drs, Fault> {
    let mut referents = Referents::new(alloc);
    let mut conditions = Conds::new(alloc);
    for referent in 1..=LINKS {
        referents.push(referent)?;
        conditions.push(Cond::Class(noun(referent), Thing::Ref(referent)))?;
        conditions.push(Cond::Rel(verb(referent), Thing::Name(MARY), Thing::Ref(referent)))?;
    }
    Ok(Drs::new(referents, conditions))
}

// `Every cat that owns a man that sees a dog that .. is a man.`
fn nested(alloc: Global) -> Result<Drs, Fault> {
    let mut referents = Referents::new(alloc);
    let mut conditions = Conds::new(alloc);
    for referent in 1..=LINKS {
        referents.push(referent)?;
        conditions.push(Cond::Class(noun(referent), Thing::Ref(referent)))?;
        if referent > 1 {
            let before = Thing::Ref(referent - 1);
            conditions.push(Cond::Rel(verb(referent), before, Thing::Ref(referent)))?;
        }
    }
    let left = Drs::new(referents, conditions);
    let mut is_man = Conds::new(alloc);
    is_man.push(Cond::Class(MAN, Thing::Ref(1)))?;
    let right = Drs::new(Referents::new(alloc), is_man);
    let mut whole = Conds::new(alloc);
    whole.push(Cond::Implies(left, right))?;
    Ok(Drs::new(Referents::new(alloc), whole))
}

fn texts(alloc: Global, statement: &Drs) -> Result<List<Text8>, Fault> {
    let Mapped::Axioms(axioms) = map_statement(alloc, statement)? else {
        return Err(Fault::Outside);
    };
    let mut texts = List::new(alloc);
    for axiom in axioms.as_slice() {
        texts.push(print_axiom(alloc, axiom, &Few)?)?;
    }
    Ok(texts)
}

pub(crate) fn measure(rt: &HostRuntime, timed: bool) -> Result<(), Fault> {
    let alloc = rt.alloc();
    let joined = joined(alloc)?;
    let nested = nested(alloc)?;
    let mut lines = texts(alloc, &joined)?;
    lines.append(texts(alloc, &nested)?)?;
    for line in lines.as_slice() {
        let line = line.as_str();
        println!(rt; "{line}")?;
    }
    let start = rt.thread_cpu_time()?;
    for _ in 0..RUNS {
        texts(alloc, &joined)?;
    }
    let between = rt.thread_cpu_time()?;
    for _ in 0..RUNS {
        texts(alloc, &nested)?;
    }
    let end = rt.thread_cpu_time()?;
    if timed {
        let first = between.saturating_sub(start).as_micros();
        let second = end.saturating_sub(between).as_micros();
        println!(rt; "{first} and {second} microseconds for a thousand mappings of each")?;
    }
    Ok(())
}
