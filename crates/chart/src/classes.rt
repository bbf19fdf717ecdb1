// The readings of forms of words, and their classes: forms of one class read alike but for their words.
ghost use Rattle.std.specs.Prelude.{◌≡◌, ◌≤◌, ◌<◌, length, map, OnOk};
ghost use Rattle.lexicon.specs.Readings as lexical;
ghost use Rattle.chart_table.specs.declared.asks.Ask.TheVariants as ask;
ghost use Rattle.chart.specs.Offers as offers;

use chart_table::Ask;
use codeco_terms::{Ground, Vals, Value};
use lexicon::Kind;
use wiki_base::WordId;

// The features and the categories that every grammar has, by number.
const NUM: u16 = 0;

const VOW: u16 = 1;

const FORM: u16 = 2;

const W: u16 = 3;

const NAME: u16 = 0;

const NOUN: u16 = 1;

const OF: u16 = 2;

const VERB: u16 = 3;

const ADJECTIVE: u16 = 4;

/// How many classes of forms there are.
pub(crate) const CLASS_COUNT: usize = 11;

fn is_vowel(letter: u8) -> bool
    ensures { result ≡ lexical.is_vowel letter }
{
    b"aeiouAEIOU".contains(&letter)
}

fn begins_with_vowel(form: &[u8]) -> bool
    ensures { result ≡ lexical.begins_with_vowel form.now }
{
    match form {
        [] => false,
        [first, ..] => is_vowel(*first),
    }
}

// The class of the form at a place of a word of the kind.
pub(crate) fn class_of(kind: Kind, place: usize, form: &[u8]) -> usize
    ensures { result ≡ offers.class_of kind place form.now }
{
    match kind {
        Kind::Name => 0,
        Kind::Noun => match (place == 0, begins_with_vowel(form)) {
            (true, true) => 1,
            (true, false) => 2,
            (false, true) => 3,
            (false, false) => 4,
        },
        Kind::Of => { if begins_with_vowel(form) { 5 } else { 6 } }
        Kind::Verb => match place {
            0 => 7,
            1 => 8,
            _ => 9,
        },
        Kind::Adjective => 10,
    }
}

// A ground category of this name and these values.
fn ground(name: u16, pairs: &[(u16, Value)]) -> Ground
    requires { length pairs.now ≤ 3 }
    ensures name { result.name ≡ name }
    ensures vals { result.vals ≡ pairs.now }
{
    let mut vals = Vals::new();
    for (feature, value) in pairs {
        vals.push(*feature, *value);
    }
    Ground { name, vals }
}

fn number_at(place: usize) -> Value
    ensures { result ≡ lexical.number_at place }
{
    if place == 0 {
        Value::Atom(0)
    } else {
        Value::Atom(1)
    }
}

fn form_at(place: usize) -> Value
    ensures { result ≡ lexical.form_at place }
{
    match place {
        0 => Value::Atom(4),
        1 => Value::Atom(5),
        _ => Value::Atom(6),
    }
}

fn vow_of(form: &[u8]) -> Value
    ensures { result ≡ lexical.vow_of form.now }
{
    if begins_with_vowel(form) {
        Value::Atom(2)
    } else {
        Value::Atom(3)
    }
}

// What the form at a place of a word of the kind is to a grammar.
pub(crate) fn reading(kind: Kind, id: WordId, place: usize, form: &[u8]) -> Ground
    ensures { result ≡ lexical.reading kind id place form.now }
{
    let word = Value::Word(id);
    match kind {
        Kind::Name => ground(NAME, &[(W, word)]),
        Kind::Noun => ground(
            NOUN,
            &[(NUM, number_at(place)), (VOW, vow_of(form)), (W, word)],
        ),
        Kind::Of => ground(OF, &[(VOW, vow_of(form)), (W, word)]),
        Kind::Verb => ground(VERB, &[(FORM, form_at(place)), (W, word)]),
        Kind::Adjective => ground(ADJECTIVE, &[(W, word)]),
    }
}

// The ask for forms that read so.
pub(crate) fn form_ask(kind: Kind, id: WordId, place: usize, form: &[u8]) -> Ask
    ensures { result ≡ ask.Reading (lexical.reading kind id place form.now) }
{
    Ask::Reading(reading(kind, id, place, form))
}

// The asks for the forms of the classes, with the word.
pub(crate) fn class_asks(id: WordId) -> [Ask; CLASS_COUNT]
    ensures { result ≡ map ask.Reading (offers.class_readings id) }
{
    [
        form_ask(Kind::Name, id, 0, b"b"),
        form_ask(Kind::Noun, id, 0, b"a"),
        form_ask(Kind::Noun, id, 0, b"b"),
        form_ask(Kind::Noun, id, 1, b"a"),
        form_ask(Kind::Noun, id, 1, b"b"),
        form_ask(Kind::Of, id, 0, b"a"),
        form_ask(Kind::Of, id, 0, b"b"),
        form_ask(Kind::Verb, id, 0, b"b"),
        form_ask(Kind::Verb, id, 1, b"b"),
        form_ask(Kind::Verb, id, 2, b"b"),
        form_ask(Kind::Adjective, id, 0, b"b"),
    ]
}
