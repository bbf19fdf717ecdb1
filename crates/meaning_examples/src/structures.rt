// Structures as texts, as `[4 | dog(4), own(Mary, 4)]`.
use drs_build::Built;
use lexicon::Lexicon;
use logic_terms::{Cond, Conds, Drs, Thing};
use std::alloc::Global;
use std::test::Fail;
use wiki_base::{Spelled, Text8, WordId};

fn put_number(alloc: Global, out: &mut Text8, number: u16) -> Result<(), Fail> {
    let digits = format!(in alloc; "{number}")?;
    out.push_str(&digits)?;
    Ok(())
}

fn put_word(out: &mut Text8, lexicon: &Lexicon, word: WordId) -> Result<(), Fail> {
    let Some(form) = lexicon.spelled(word) else {
        return Err(Fail::new("a live word"));
    };
    out.push_str(form)?;
    Ok(())
}

fn put_thing(alloc: Global, out: &mut Text8, lexicon: &Lexicon, thing: Thing) -> Result<(), Fail> {
    match thing {
        Thing::Ref(referent) => put_number(alloc, out, referent),
        Thing::Name(name) => put_word(out, lexicon, name),
    }
}

fn put_pair(
    alloc: Global,
    out: &mut Text8,
    lexicon: &Lexicon,
    things: (Thing, Thing),
    between: &str,
) -> Result<(), Fail> {
    put_thing(alloc, out, lexicon, things.0)?;
    out.push_str(between)?;
    put_thing(alloc, out, lexicon, things.1)
}

fn put_referents(alloc: Global, out: &mut Text8, referents: &[u16]) -> Result<(), Fail> {
    let mut between = "";
    for referent in referents {
        out.push_str(between)?;
        put_number(alloc, out, *referent)?;
        between = ", ";
    }
    Ok(())
}

#[cycle(shown)]
fn put_structure(alloc: Global, out: &mut Text8, lexicon: &Lexicon, drs: &Drs) -> Result<(), Fail> {
    out.push_str("[")?;
    put_referents(alloc, out, drs.referents().as_slice())?;
    out.push_str(" | ")?;
    put_conditions(alloc, out, lexicon, drs.conditions())?;
    out.push_str("]")?;
    Ok(())
}

#[cycle(shown)]
fn put_conditions(
    alloc: Global,
    out: &mut Text8,
    lexicon: &Lexicon,
    conditions: &Conds,
) -> Result<(), Fail> {
    for place in 0..conditions.len() {
        if place > 0 {
            out.push_str(", ")?;
        }
        put_condition(alloc, out, lexicon, conditions.get(place))?;
    }
    Ok(())
}

#[cycle(shown)]
fn put_condition(
    alloc: Global,
    out: &mut Text8,
    lexicon: &Lexicon,
    condition: &Cond,
) -> Result<(), Fail> {
    match condition {
        Cond::Class(noun, thing) => {
            put_word(out, lexicon, *noun)?;
            out.push_str("(")?;
            put_thing(alloc, out, lexicon, *thing)?;
            out.push_str(")")?;
        }
        Cond::Rel(word, from, to) => {
            put_word(out, lexicon, *word)?;
            out.push_str("(")?;
            put_pair(alloc, out, lexicon, (*from, *to), ", ")?;
            out.push_str(")")?;
        }
        Cond::Same(one, other) => put_pair(alloc, out, lexicon, (*one, *other), " = ")?,
        Cond::Not(inner) => {
            out.push_str("not ")?;
            put_structure(alloc, out, lexicon, inner)?;
        }
        Cond::Implies(left, right) => {
            put_structure(alloc, out, lexicon, left)?;
            out.push_str(" implies ")?;
            put_structure(alloc, out, lexicon, right)?;
        }
        Cond::Or(one, other) => {
            put_structure(alloc, out, lexicon, one)?;
            out.push_str(" or ")?;
            put_structure(alloc, out, lexicon, other)?;
        }
    }
    Ok(())
}

/// The structure, for a question with the referent that is asked for; or the first free referent.
pub fn shown(alloc: Global, lexicon: &Lexicon, built: &Built) -> Result<Text8, Fail> {
    let mut out = Text8::new(alloc);
    match built {
        Built::Statement(drs) => put_structure(alloc, &mut out, lexicon, drs)?,
        Built::Question(drs, asked) => {
            put_structure(alloc, &mut out, lexicon, drs)?;
            out.push_str(", asked ")?;
            put_number(alloc, &mut out, *asked)?;
        }
        Built::Free(referent) => {
            out.push_str("free ")?;
            put_number(alloc, &mut out, *referent)?;
        }
    }
    Ok(out)
}
