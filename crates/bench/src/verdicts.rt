// Gives verdicts on the axioms of 200 sentences that are drawn by a rule, and on axioms with many names or many choices. With
// the word `time` there are more of them, and it also tells how much processor time each verdict took. With the word `owl` it
// prints those axioms as ontologies in functional-style syntax, for other reasoners.

use crate::choices::{Base, chain, drawn_colouring, hidden, path_and_clique, persons};
use crate::fault::Fault;
use crate::owl::print_base;
use crate::sentences::{Words, axioms};
use absorb::absorb;
use logic_terms::{Axiom, Axioms, Class, Names};
use owl_eval::{CheckedModel, Interp};
use reasoner::{Verdict, verdict};
use reasoner_examples::are_fit;
use std::alloc::Global;
use std::time::CpuClock;
use tableau::systematic;
use wiki_base::WordId;

const WORDS: Words = Words {
    first_noun: 21,
    first_name: 1,
};

const DEFAULT_BUDGET: u64 = 1_000_000;

// The words of all names, in order.
fn names(alloc: Global) -> Result<Names, Fault> {
    let words = vec![in alloc;
        WordId(1),
        WordId(2),
        WordId(3),
        WordId(4),
        WordId(5),
        WordId(6),
        WordId(7),
        WordId(8),
        WordId(9),
        WordId(10),
        WordId(11),
        WordId(12),
        WordId(13),
        WordId(14),
        WordId(15),
        WordId(16),
        WordId(17),
        WordId(18),
        WordId(19),
        WordId(20),
    ]?;
    Ok(Names::from_vec(words))
}

// The axioms of so many sentences, over all names.
fn sentences(alloc: Global, count: u32) -> Result<Base, Fault> {
    Ok(Base {
        axioms: axioms(alloc, WORDS, count, 7)?,
        names: names(alloc)?,
    })
}

// The same with one more, by which a name is in a class word that they don't have.
fn one_more(alloc: Global, count: u32) -> Result<Base, Fault> {
    let mut base = sentences(alloc, count)?;
    let class = Class::Named(WordId(51));
    base.axioms.push(Axiom::Member(class, WORDS.name(0)))?;
    Ok(base)
}

// The interpretation with one element that is in no class and has no pair.
fn bare(alloc: Global) -> Result<CheckedModel, Fault> {
    let interp = Interp::new(alloc, 1, Vec::new(alloc), Vec::new(alloc), Vec::new(alloc))?;
    CheckedModel::new(interp, Axioms::new(alloc)).map_err(|_| Fault::Axioms)
}

// The verdict on a base within a budget, and the microseconds of processor time that it took.
fn judged<R: CpuClock>(
    rt: &R,
    alloc: Global,
    base: Base,
    kept: &CheckedModel,
    budget: u64,
) -> Result<(Verdict<CheckedModel>, u128), Fault> {
    let Base { axioms, names } = base;
    if are_fit(&names, &axioms) {
        let start = rt.thread_cpu_time()?;
        let verdict = verdict(alloc, axioms, &names, kept, budget)?;
        let taken = rt.thread_cpu_time()?.saturating_sub(start).as_micros();
        Ok((verdict, taken))
    } else {
        Err(Fault::Axioms)
    }
}

// The model of a consistent verdict.
fn model_of(verdict: Verdict<CheckedModel>) -> Result<CheckedModel, Fault> {
    match verdict {
        Verdict::Consistent(model) => Ok(model),
        Verdict::Inconsistent(_) => Err(Fault::Axioms),
        Verdict::Spent(_) => Err(Fault::Axioms),
    }
}

fn is_spent(verdict: &Verdict<CheckedModel>) -> bool {
    match verdict {
        Verdict::Spent(_) => true,
        _ => false,
    }
}

// What a verdict on a base is, or the end of a search.
fn said<T>(verdict: &Verdict<T>) -> &'static str {
    match verdict {
        Verdict::Consistent(_) => "a model",
        Verdict::Inconsistent(_) => "no model",
        Verdict::Spent(_) => "spent",
    }
}

// Tells the verdict on a base with the program's own budget, and how much processor time it took where that is asked.
fn tell<R: Print + CpuClock>(
    rt: &R,
    alloc: Global,
    text: &str,
    base: Base,
    timed: bool,
) -> Result<(), Fault> {
    let none = bare(alloc)?;
    let (verdict, taken) = judged(rt, alloc, base, &none, DEFAULT_BUDGET)?;
    let kind = said(&verdict);
    drop(verdict);
    if timed {
        println!(rt; "{text}: {kind}, {taken} microseconds")?;
    } else {
        println!(rt; "{text}: {kind}")?;
    }
    Ok(())
}

// Tells how the systematic search alone ends on a base, and how much processor time it took where that is asked.
fn tell_systematic<R: Print + CpuClock>(
    rt: &R,
    alloc: Global,
    text: &str,
    base: Base,
    timed: bool,
) -> Result<(), Fault> {
    let Base { axioms, names } = base;
    if !are_fit(&names, &axioms) {
        return Err(Fault::Axioms);
    }
    let knowledge = absorb(alloc, &axioms, &names)?;
    let start = rt.thread_cpu_time()?;
    let end = systematic(alloc, &knowledge, DEFAULT_BUDGET)?;
    let taken = rt.thread_cpu_time()?.saturating_sub(start).as_micros();
    let kind = said(&end);
    if timed {
        println!(rt; "{text}, the systematic search alone: {kind}, {taken} microseconds")?;
    } else {
        println!(rt; "{text}, the systematic search alone: {kind}")?;
    }
    Ok(())
}

// A base with what it is called.
#[derive(Drop)]
struct Named {
    text: &'static str,
    base: Base,
}

// Axioms with many names or many choices. Those colourings that are not planted may have none.
fn bases(alloc: Global, many: bool) -> Result<Vec<Named>, Fault> {
    let (count, unions, path) = if many { (1_000, 100, 20) } else { (10, 4, 4) };
    let (named, links) = if many { (500, 499) } else { (5, 4) };
    let (vertices, edges, seeds) = if many { (100, 230, 20) } else { (9, 14, 2) };
    let mut bases = Vec::new(alloc);
    add(&mut bases, "persons", persons(alloc, count)?)?;
    add(&mut bases, "a hidden clash", hidden(alloc, unions)?)?;
    let apart = path_and_clique(alloc, path, false)?;
    add(&mut bases, "a path and a clique", apart)?;
    let joined = path_and_clique(alloc, path, true)?;
    add(&mut bases, "a path to a clique", joined)?;
    for seed in 0..seeds {
        let planted = drawn_colouring(alloc, vertices, edges, seed, true)?;
        add(&mut bases, "a planted colouring", planted)?;
        if many {
            let drawn = drawn_colouring(alloc, vertices, edges, seed, false)?;
            add(&mut bases, "a drawn colouring", drawn)?;
        }
    }
    Ok(bases)
}

// Chains under a transitive relation.
fn chains(alloc: Global, many: bool) -> Result<Vec<Named>, Fault> {
    let (named, links) = if many { (500, 499) } else { (5, 4) };
    let mut bases = Vec::new(alloc);
    add(&mut bases, "a chain", chain(alloc, named, links, false)?)?;
    let denied = chain(alloc, named, links, true)?;
    add(&mut bases, "a chain with its ends denied", denied)?;
    Ok(bases)
}

fn add(bases: &mut Vec<Named>, text: &'static str, base: Base) -> Result<(), Fault> {
    bases.push(Named { text, base })?;
    Ok(())
}

// Tells the verdicts on the axioms of sentences: by a search that ends within its budget, by a model that is kept, and by one
// that grows out of it.
fn tell_sentences<R: Print + CpuClock>(rt: &R, alloc: Global, timed: bool) -> Result<(), Fault> {
    let (count, steps) = if timed { (2_000, 424) } else { (200, 245) };
    let none = bare(alloc)?;
    let (early, _) = judged(rt, alloc, sentences(alloc, count)?, &none, steps - 1)?;
    let spent = is_spent(&early);
    drop(early);
    println!(rt; "spent one application earlier: {spent}")?;
    let (verdict, searched) = judged(rt, alloc, sentences(alloc, count)?, &none, steps)?;
    let model = model_of(verdict)?;
    let elements = model.interp().size();
    println!(rt; "{elements} elements after {steps} applications")?;
    let (verdict, kept) = judged(rt, alloc, sentences(alloc, count)?, &model, 0)?;
    let elements = model_of(verdict)?.interp().size();
    println!(rt; "{elements} elements with the model kept")?;
    let (verdict, grown) = judged(rt, alloc, one_more(alloc, count)?, &model, DEFAULT_BUDGET)?;
    let elements = model_of(verdict)?.interp().size();
    println!(rt; "{elements} elements with one more axiom")?;
    if timed {
        println!(rt;
            "{searched} microseconds with a search, {kept} without, {grown} with one more axiom"
        )?;
    }
    Ok(())
}

// Tells the verdict on a chain with one more link, by a model that grows out of that of the chain.
fn tell_chain<R: Print + CpuClock>(rt: &R, alloc: Global, timed: bool) -> Result<(), Fault> {
    let (named, links) = if timed { (500, 499) } else { (5, 4) };
    let none = bare(alloc)?;
    let shorter = chain(alloc, named, links - 1, false)?;
    let (verdict, searched) = judged(rt, alloc, shorter, &none, DEFAULT_BUDGET)?;
    let model = model_of(verdict)?;
    let longer = chain(alloc, named, links, false)?;
    let (verdict, grown) = judged(rt, alloc, longer, &model, 0)?;
    let elements = model_of(verdict)?.interp().size();
    println!(rt; "{elements} elements with one more link")?;
    if timed {
        println!(rt; "{searched} microseconds for the chain, {grown} with one more link")?;
    }
    Ok(())
}

// Prints all axioms as files in functional-style syntax, each behind a line with its name.
fn print_all<R: Print>(rt: &R, alloc: Global) -> Result<(), Fault> {
    println!(rt; "# sentences")?;
    print_base(rt, alloc, &sentences(alloc, 2_000)?)?;
    print_each(rt, alloc, bases(alloc, true)?)?;
    print_each(rt, alloc, chains(alloc, true)?)
}

// Prints the axioms of these bases.
fn print_each<R: Print>(rt: &R, alloc: Global, bases: Vec<Named>) -> Result<(), Fault> {
    for named in bases {
        let text = named.text;
        println!(rt; "# {text}")?;
        print_base(rt, alloc, &named.base)?;
    }
    Ok(())
}

fn tell_all<R: Print + CpuClock>(rt: &R, alloc: Global, timed: bool) -> Result<(), Fault> {
    tell_sentences(rt, alloc, timed)?;
    tell_chain(rt, alloc, timed)?;
    let count = if timed { 1_000 } else { 10 };
    tell_systematic(rt, alloc, "persons", persons(alloc, count)?, timed)?;
    if timed {
        let more = persons(alloc, 4_000)?;
        tell_systematic(rt, alloc, "four times as many", more, timed)?;
    }
    tell_each(rt, alloc, bases(alloc, timed)?, timed)?;
    tell_each(rt, alloc, chains(alloc, timed)?, timed)?;
    let behind = hidden(alloc, 10_000)?;
    tell(rt, alloc, "a clash behind 10,000 choices", behind, timed)
}

// Tells the verdict on each of these bases.
fn tell_each<R: Print + CpuClock>(
    rt: &R,
    alloc: Global,
    bases: Vec<Named>,
    timed: bool,
) -> Result<(), Fault> {
    for named in bases {
        let Named { text, base } = named;
        tell(rt, alloc, text, base, timed)?;
    }
    Ok(())
}

pub(crate) fn measure(rt: &HostRuntime, word: Option<&str>) -> Result<(), Fault> {
    let alloc = rt.alloc();
    match word {
        Some("owl") => print_all(rt, alloc),
        Some(_) => tell_all(rt, alloc, true),
        None => tell_all(rt, alloc, false),
    }
}
