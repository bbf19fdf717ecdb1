// Which words two interpretations give the same.
ghost use Rattle.std.specs.Prelude.{◌≡◌, ◌<◌, ◌≤◌, true, false, length, slice_get, Some, IsTrue, IfOk, OnOk, IsSorted, All};
ghost use Rattle.std.specs.Ordering.{nat_cmp};
ghost use Rattle.wiki_base.specs.declared.numbers.WordId.{WordId};
ghost use Rattle.logic_terms.specs.Interpretation.{is_interpretation};
ghost use Rattle.owl_eval.specs.Changes.{is_listed, words_of, GiveSame, AreSameAt, IsPartOf, DifferOnlyAt};

use crate::interp::Interp;
use wiki_base::{Memory, WordId};

/// A kind of word.
#[derive(Clone, Copy)]
pub(crate) enum Kind {
    Names,
    Classes,
    Relations,
}

// The numbers of the words that two interpretations of one size don't give the same, in rising order; maybe of others too.
pub(crate) fn changed_words(one: &Interp, other: &Interp) -> Result<Vec<u32>, Memory>
    requires { one.now.size ≡ other.now.size }
    ensures rising { IfOk result (λ changed. IsSorted nat_cmp changed.items) }
    ensures differ { IfOk result (λ changed. DifferOnlyAt changed.items one.now other.now) }
{
    let one = one.lent();
    let other = other.lent();
    let mut changed = Vec::new(one.allocator());
    note_changes(one, other, Kind::Names, &mut changed)?;
    note_changes(one, other, Kind::Classes, &mut changed)?;
    note_changes(one, other, Kind::Relations, &mut changed)?;
    changed.sort_unstable();
    Ok(changed)
}

// Adds the words of a kind that the two interpretations don't give the same.
fn note_changes(
    one: &Interp,
    other: &Interp,
    kind: Kind,
    changed: &mut Vec<u32>,
) -> Result<(), Memory>
    requires one { IsTrue (is_interpretation one.now) }
    requires other { IsTrue (is_interpretation other.now) }
    ensures kept { OnOk result (IsPartOf changed.old.items changed.new.items) }
    ensures noted { OnOk result ((word : WordId) → is_listed changed.new.items word ≡ false → GiveSame kind one.now other.now word) }
{
    note_missed(one, other, kind, changed)?;
    note_missed(other, one, kind, changed)?;
    Ok(())
}

// Adds the words of a kind to which the one interpretation gives something and the other not the same.
fn note_missed(
    one: &Interp,
    other: &Interp,
    kind: Kind,
    changed: &mut Vec<u32>,
) -> Result<(), Memory>
    requires one { IsTrue (is_interpretation one.now) }
    requires other { IsTrue (is_interpretation other.now) }
    ensures kept { OnOk result (IsPartOf changed.old.items changed.new.items) }
    ensures noted { OnOk result (All (λ word. is_listed changed.new.items word ≡ false → GiveSame kind one.now other.now word) (words_of kind one.now)) }
{
    let mut beside = 0;
    for place in 0..word_count(one, kind) {
        let word = word_at(one, kind, place);
        beside = place_from(other, kind, beside, word);
        if !are_same_at(one, other, kind, place, beside) {
            changed.push(word.0)?;
        }
    }
    Ok(())
}

// The first place from one on of a word of a kind that isn't below this one.
fn place_from(interp: &Interp, kind: Kind, start: usize, word: WordId) -> usize
    ensures { result ≤ length (words_of kind interp.now) }
{
    let count = word_count(interp, kind);
    for place in start..count {
        if word_at(interp, kind, place).0 >= word.0 {
            return place;
        }
    }
    count
}

// To how many words of a kind an interpretation gives something.
fn word_count(interp: &Interp, kind: Kind) -> usize
    ensures { result ≡ length (words_of kind interp.now) }
{
    match kind {
        Kind::Names => interp.names().len(),
        Kind::Classes => interp.class_count(),
        Kind::Relations => interp.relation_count(),
    }
}

// The word of a kind at a place.
fn word_at(interp: &Interp, kind: Kind, place: usize) -> WordId
    requires { place < length (words_of kind interp.now) }
    ensures { slice_get (words_of kind interp.now) place ≡ Some result }
{
    match kind {
        Kind::Names => interp.names()[place].0,
        Kind::Classes => interp.class_at(place).0,
        Kind::Relations => interp.relation_at(place).0,
    }
}

// Whether two interpretations have the same word of a kind at these places, and give it the same.
fn are_same_at(one: &Interp, other: &Interp, kind: Kind, place: usize, beside: usize) -> bool
    requires { place < length (words_of kind one.now) }
    ensures { result ≡ true → AreSameAt kind one.now other.now place beside }
{
    if beside >= word_count(other, kind) {
        return false;
    }
    match kind {
        Kind::Names => same_name_at(one, other, place, beside),
        Kind::Classes => same_class_at(one, other, place, beside),
        Kind::Relations => same_relation_at(one, other, place, beside),
    }
}

fn same_name_at(one: &Interp, other: &Interp, place: usize, beside: usize) -> bool
    requires one { place < length one.now.names }
    requires other { beside < length other.now.names }
    ensures { result ≡ true → slice_get one.now.names place ≡ slice_get other.now.names beside }
{
    let (word, element) = one.names()[place];
    let (others, at) = other.names()[beside];
    word.0 == others.0 && element == at
}

fn same_class_at(one: &Interp, other: &Interp, place: usize, beside: usize) -> bool
    requires one { place < length one.now.classes }
    requires other { beside < length other.now.classes }
    ensures { result ≡ true → slice_get one.now.classes place ≡ slice_get other.now.classes beside }
{
    let (word, elements) = one.class_at(place);
    let (others, at) = other.class_at(beside);
    word.0 == others.0 && elements == at
}

fn same_relation_at(one: &Interp, other: &Interp, place: usize, beside: usize) -> bool
    requires one { place < length one.now.relations }
    requires other { beside < length other.now.relations }
    ensures { result ≡ true → slice_get one.now.relations place ≡ slice_get other.now.relations beside }
{
    let (word, pairs) = one.relation_at(place);
    let (others, at) = other.relation_at(beside);
    word.0 == others.0 && pairs == at
}
