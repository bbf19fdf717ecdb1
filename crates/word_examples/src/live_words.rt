// A lexicon beside a grammar with the terminal `every`.
use codeco_terms::{Features, Grammar, Rules, Symbol, Symbols, Value};
use lexicon::{Kind, LexFault, LexLimit, Lexicon, Readings, forms};
use std::alloc::Global;
use std::process::Abort;
use std::test::Fail;
use wiki_base::{Copied, Memory, Text, WordId};

fn beside_every(alloc: Global) -> Result<Lexicon, Memory> {
    Lexicon::new(alloc, &with_terminals(alloc, every(alloc)?))
}

fn with_terminals(alloc: Global, terminals: Symbols) -> Grammar {
    Grammar::new(
        Features::new(alloc),
        Symbols::new(alloc),
        terminals,
        Symbols::new(alloc),
        Rules::new(alloc),
    )
}

fn every(alloc: Global) -> Result<Symbols, Memory> {
    let mut terminals = Symbols::new(alloc);
    terminals.push(Symbol::from_slice(alloc, b"every")?)?;
    Ok(terminals)
}

// What adding the word answers, whose forms are those for the texts.
fn answer(
    alloc: Global,
    lexicon: &mut Lexicon,
    kind: Kind,
    texts: &[&str],
) -> Result<Result<WordId, LexFault>, Fail> {
    let mut given = Vec::new(alloc);
    for text in texts {
        given.push(Text::read(alloc, text)?)?;
    }
    let forms = forms(alloc, kind, given.as_slice())?;
    Ok(lexicon.add(&forms))
}

fn added(alloc: Global, lexicon: &mut Lexicon, kind: Kind, text: &str) -> Result<WordId, Fail> {
    match answer(alloc, lexicon, kind, &[text])? {
        Ok(id) => Ok(id),
        Err(_) => Err(Fail::from("refused")),
    }
}

fn refused(alloc: Global, lexicon: &mut Lexicon, kind: Kind, text: &str) -> Result<LexFault, Fail> {
    match answer(alloc, lexicon, kind, &[text])? {
        Ok(_) => Err(Fail::from("added")),
        Err(fault) => Ok(fault),
    }
}

fn assert_found(rt: &impl Abort, lexicon: &Lexicon, form: &str, wanted: Option<WordId>) {
    assert!(rt; lexicon.find(form) == wanted, "{form}");
}

// Adds names of three letters, as many as are asked for.
fn add_many(alloc: Global, lexicon: &mut Lexicon, count: u32) -> Result<(), Fail> {
    for n in 0..count {
        let mut text = String::new(alloc);
        for place in &[n / 676, n / 26, n] {
            text.push(char::from(b'a' + (*place % 26) as u8))?;
        }
        added(alloc, lexicon, Kind::Name, text.as_str())?;
    }
    Ok(())
}

#[test]
fn a_word_is_found_by_each_form(rt: HostRuntime) -> Result<(), Fail> {
    let mut lexicon = beside_every(rt.alloc())?;
    assert!(rt; lexicon.is_empty());
    assert!(rt; lexicon.terminals().len() == 1);
    added(rt.alloc(), &mut lexicon, Kind::Name, "Bern")?;
    let id = added(rt.alloc(), &mut lexicon, Kind::Noun, "country")?;
    assert!(rt; id == WordId(2));
    has_two_words(&rt, &lexicon)
}

fn has_two_words(rt: &impl Abort, lexicon: &Lexicon) -> Result<(), Fail> {
    assert_found(rt, lexicon, "countries", Some(WordId(2)));
    assert_found(rt, lexicon, "Bonn", None);
    let forms = lexicon.word(WordId(2)).ok_or("no word")?;
    assert!(rt; forms.canonical().as_str() == "country");
    assert!(rt; lexicon.word(WordId(3)).is_none());
    assert!(rt; lexicon.len() == 2);
    assert!(rt; lexicon.get(0).id == WordId(1));
    Ok(())
}

fn is_reserved(fault: &LexFault, form: &str) -> bool {
    match fault {
        LexFault::Reserved { text } => text.as_str() == form,
        _ => false,
    }
}

fn is_taken(fault: &LexFault, form: &str, id: WordId) -> bool {
    match fault {
        LexFault::Taken { text, owner } => text.as_str() == form && *owner == id,
        _ => false,
    }
}

#[test]
fn forms_that_others_have_are_refused(rt: HostRuntime) -> Result<(), Fail> {
    let mut lexicon = beside_every(rt.alloc())?;
    added(rt.alloc(), &mut lexicon, Kind::Noun, "country")?;
    for name in &["every", "Every"] {
        let fault = refused(rt.alloc(), &mut lexicon, Kind::Name, name)?;
        assert!(rt; is_reserved(&fault, name), "{name}");
    }
    let fault = refused(rt.alloc(), &mut lexicon, Kind::Name, "countries")?;
    assert!(rt; is_taken(&fault, "countries", WordId(1)));
    Ok(())
}

#[test]
fn the_word_after_5000_is_refused(rt: HostRuntime) -> Result<(), Fail> {
    let mut lexicon = beside_every(rt.alloc())?;
    add_many(rt.alloc(), &mut lexicon, 5000)?;
    let fault = refused(rt.alloc(), &mut lexicon, Kind::Name, "zzz")?;
    assert!(rt; matches!(fault, LexFault::Full(LexLimit::Words)));
    assert_found(&rt, &lexicon, "zzz", None);
    assert_found(&rt, &lexicon, "haa", Some(WordId(4733)));
    Ok(())
}

// Gives the noun with the number the forms of another.
fn reword(alloc: Global, lexicon: &mut Lexicon, id: WordId, text: &str) -> Result<(), Fail> {
    let mut given = Vec::new(alloc);
    given.push(Text::read(alloc, text)?)?;
    let forms = forms(alloc, Kind::Noun, given.as_slice())?;
    match lexicon.word(id) {
        Some(old) if old.kind == Kind::Noun => {}
        _ => return Err(Fail::from("no noun")),
    }
    match lexicon.reword(id, &forms) {
        Ok(()) => Ok(()),
        Err(_) => Err(Fail::from("refused")),
    }
}

#[test]
fn a_word_gets_other_forms(rt: HostRuntime) -> Result<(), Fail> {
    let mut lexicon = beside_every(rt.alloc())?;
    let cat = added(rt.alloc(), &mut lexicon, Kind::Noun, "cat")?;
    let copied = lexicon.copy()?;
    reword(rt.alloc(), &mut lexicon, cat, "kitten")?;
    assert_found(&rt, &copied, "cats", Some(cat));
    has_kitten_for_cat(&rt, &lexicon, cat);
    Ok(())
}

fn has_kitten_for_cat(rt: &impl Abort, lexicon: &Lexicon, cat: WordId) {
    assert_found(rt, lexicon, "cats", None);
    assert_found(rt, lexicon, "kittens", Some(cat));
}

#[test]
fn a_word_is_taken_out(rt: HostRuntime) -> Result<(), Fail> {
    let mut lexicon = beside_every(rt.alloc())?;
    let cat = added(rt.alloc(), &mut lexicon, Kind::Noun, "cat")?;
    for is_there in &[true, false] {
        assert!(rt; lexicon.remove(cat).is_ok() == *is_there);
        assert_found(&rt, &lexicon, "cats", None);
    }
    Ok(())
}

// The second of two readings is that of the plural of word 1.
fn has_plural_reading(rt: &impl Abort, readings: &Readings) {
    assert!(rt; readings.len() == 2);
    let wanted = [
        (0, Value::Atom(1)),
        (1, Value::Atom(3)),
        (3, Value::Word(WordId(1))),
    ];
    assert!(rt; readings.get(1).vals.as_slice() == wanted.as_slice());
}

#[test]
fn a_form_has_the_values_of_its_word(rt: HostRuntime) -> Result<(), Fail> {
    let alloc = rt.alloc();
    let mut lexicon = beside_every(alloc)?;
    assert!(rt; answer(alloc, &mut lexicon, Kind::Noun, &["sheep", "sheep"])?.is_ok());
    has_plural_reading(&rt, &lexicon.readings("sheep"));
    assert!(rt; lexicon.readings("goat").is_empty());
    Ok(())
}
