// The pairs of a relation word.
ghost use Rattle.std.specs.Prelude.{◌≡◌, ℕ, Bool, true, false, ◌==◌, ◌&&◌, ◌||◌, ◌<◌, ◌≤◌, ◌-◌, nat_lt, length, get_or, drop, map, filter, IsSorted, IsPermutation, IfOk, IfSome, MatchOption};
ghost use Rattle.std.specs.List.{list_any, list_all};
ghost use Rattle.std.specs.List.Sorted.{IsNonDecreasingBy};
ghost use Rattle.logic_terms.specs.Meaning.{implies};
ghost use Rattle.owl_eval.specs.Leads.{spans, IsLed, IsLedBy, AreRelayed};
ghost use Rattle.owl_eval.specs.Pairs.{pair_cmp, swapped, is_paired, leads_on};

use crate::sorted::has_item;
use std::alloc::Global;
use std::marker::Model;
use wiki_base::{Memory, WordId};

/// A relation word and its pairs in rising order, and once more the other way round.
#[derive(Drop)]
pub(crate) struct Relation {
    word: WordId,
    pairs: Vec<(u64, u64)>,
    inverse: Vec<(u64, u64)>,
}

impl Model for Relation {
    ghost use Rattle.std.specs.Prelude.{List, ℕ};
    ghost use Rattle.owl_eval.specs.Pairs.{AreIndexed};
    ghost use Rattle.wiki_base.specs.declared.numbers.WordId.{WordId};

    ghost Value = { WordId × List (ℕ × ℕ) };

    ghost view = { λ r. (r.word, r.pairs.items) };

    ghost invariant = { λ r. AreIndexed r.pairs.items r.inverse.items };
}

impl Relation {
    pub(crate) fn new(alloc: Global, word: WordId, pairs: Vec<(u64, u64)>) -> Result<Self, Memory>
        ensures word { IfOk result (λ made. made.0 ≡ word) }
        ensures same { IfOk result (λ made. IsPermutation pairs.items made.1) }
        ensures sorted { IfOk result (λ made. IsSorted pair_cmp made.1) }
    {
        let mut pairs = pairs;
        pairs.sort_unstable();
        let mut inverse = swapped(alloc, pairs.as_slice())?;
        inverse.sort_unstable();
        Ok(Relation {
            word,
            pairs,
            inverse,
        })
    }

    pub(crate) fn word(&self) -> WordId
        ensures { result ≡ self.now.0 }
    {
        self.word
    }

    pub(crate) fn pairs(&self) -> &[(u64, u64)]
        ensures { result.now ≡ self.now.1 }
    {
        self.pairs.as_slice()
    }

    pub(crate) fn has(&self, from: u64, to: u64) -> bool
        ensures { result ≡ list_any (λ p. (p.0 == from) && (p.1 == to)) self.now.1 }
    {
        has_item(self.pairs.as_slice(), &(from, to))
    }

    // The pairs that begin with an element.
    pub(crate) fn starting_at(&self, from: u64) -> &[(u64, u64)]
        ensures { result.now ≡ filter (λ p. p.0 == from) self.now.1 }
    {
        run_of(self.pairs.as_slice(), from)
    }

    // The pairs that end with an element, that element first.
    pub(crate) fn ending_at(&self, to: u64) -> &[(u64, u64)]
        ensures some { (test : ℕ × ℕ → Bool) → list_any test result.now ≡ list_any (λ p. (p.0 == to) && test p) (map swapped self.now.1) }
        ensures each { (test : ℕ × ℕ → Bool) → list_all test result.now ≡ list_all (λ p. implies (p.0 == to) (test p)) (map swapped self.now.1) }
    {
        run_of(self.inverse.as_slice(), to)
    }

    // Whether it is transitive: it has (x, z) wherever it has (x, y) and (y, z).
    pub(crate) fn is_transitive(&self) -> bool
        ensures { result ≡ leads_on self.now.1 }
    {
        lead_on(self.pairs.as_slice())
    }

    pub(crate) fn copy(&self, alloc: Global) -> Result<Self, Memory>
        ensures { IfOk result (λ copied. copied ≡ self.now) }
    {
        let pairs = Vec::from_slice(alloc, self.pairs.as_slice())?;
        let inverse = Vec::from_slice(alloc, self.inverse.as_slice())?;
        Ok(Relation {
            word: self.word,
            pairs,
            inverse,
        })
    }
}

// Each pair the other way round.
fn swapped(alloc: Global, pairs: &[(u64, u64)]) -> Result<Vec<(u64, u64)>, Memory>
    ensures { IfOk result (λ made. made.items ≡ map swapped pairs.now) }
{
    let made = pairs.iter().map(|pair| (pair.1, pair.0)).collect(alloc)?;
    Ok(made)
}

// The pairs in rising order that begin with an element, which stand together.
fn run_of(pairs: &[(u64, u64)], first: u64) -> &[(u64, u64)]
    requires { IsSorted pair_cmp pairs.now }
    ensures { result.now ≡ filter (λ p. p.0 == first) pairs.now }
{
    let start = pairs.partition_point(|pair| pair.0 < first);
    let end = pairs.partition_point(|pair| pair.0 <= first);
    &pairs[start..end]
}

// Whether pairs in rising order have (x, z) wherever they have (x, y) and (y, z).
fn lead_on(pairs: &[(u64, u64)]) -> bool
    requires { IsSorted pair_cmp pairs.now }
    ensures { result ≡ leads_on pairs.now }
{
    for place in 0..pairs.len() {
        if !is_as_before(pairs, place) && !leads_on_from(pairs, pairs[place].0) {
            return false;
        }
    }
    true
}

// Whether the pair before a place begins with the same element as the one there.
fn is_as_before(pairs: &[(u64, u64)], place: usize) -> bool
    requires { place < length pairs.now }
    ensures { result ≡ true → (d : ℕ × ℕ) → (0 < place) × ((get_or pairs.now (place - 1) d).0 ≡ (get_or pairs.now place d).0) }
{
    place > 0 && pairs[place - 1].0 == pairs[place].0
}

// Whether an element is related to each successor of each of its successors. Where it is to those of one that comes before
// it, the successors of that aren't looked at: of these it is told there.
fn leads_on_from(pairs: &[(u64, u64)], first: u64) -> bool
    requires { IsSorted pair_cmp pairs.now }
    ensures leads { result ≡ true → IsLed pairs.now first }
    ensures fails { result ≡ false → leads_on pairs.now ≡ false }
{
    let own = run_of(pairs, first);
    let mut relay = last_relay(pairs, own, first);
    for pair in own {
        let Some(next) = next_relay(pairs, own, first, pair.1, relay) else {
            return false;
        };
        relay = next;
    }
    true
}

// The last of an element's successors as its relay, if it is one.
fn last_relay<'a>(
    pairs: &'a [(u64, u64)],
    own: &[(u64, u64)],
    first: u64,
) -> (u64, &'a [(u64, u64)])
    requires sorted { IsSorted pair_cmp pairs.now }
    requires own { own.now ≡ filter (λ p. p.0 == first) pairs.now }
    ensures { AreRelayed pairs.now first result.0 result.1.now }
{
    let none: (u64, &'a [(u64, u64)]) = (first, &[]);
    match own.last() {
        Some(last) => next_relay(pairs, own, first, last.1, none).unwrap_or(none),
        None => none,
    }
}

// Whether an element is related to each successor of another, and then a relay of it: the known one without the ends below that
// other, or that other one, if it comes before and has more of them. What the known one leads to isn't looked at.
fn next_relay<'a>(
    pairs: &'a [(u64, u64)],
    own: &[(u64, u64)],
    first: u64,
    other: u64,
    known: (u64, &'a [(u64, u64)]),
) -> Option<(u64, &'a [(u64, u64)])>
    requires sorted { IsSorted pair_cmp pairs.now }
    requires own { own.now ≡ filter (λ p. p.0 == first) pairs.now }
    requires known { AreRelayed pairs.now first known.0 known.1.now }
    ensures led { MatchOption result (spans pairs.now first other ≡ false) (λ _. IsLedBy pairs.now first other) }
    ensures relay { IfSome result (λ relay. AreRelayed pairs.now first relay.0 relay.1.now) }
{
    let left = from_place(known.1, place_from(known.1, 0, other));
    if is_first(left, known.0, other) {
        return Some((known.0, left));
    }
    let next = run_of(pairs, other);
    if !reaches_ends(own, first, next) {
        return None;
    }
    if left.len() < next.len() && comes_before(next, other, own, first) {
        return Some((other, next));
    }
    Some((known.0, left))
}

// The pairs from a place on.
fn from_place(pairs: &[(u64, u64)], place: usize) -> &[(u64, u64)]
    requires { place ≤ length pairs.now }
    ensures { result.now ≡ drop place pairs.now }
{
    &pairs[place..]
}

// Whether these two elements are the first of some pairs.
fn is_first(pairs: &[(u64, u64)], from: u64, to: u64) -> bool
    ensures some { result ≡ true → 0 < length pairs.now }
    ensures same { result ≡ true → (d : ℕ × ℕ) → ((get_or pairs.now 0 d).0 ≡ from) × ((get_or pairs.now 0 d).1 ≡ to) }
{
    !pairs.is_empty() && pairs[0].0 == from && pairs[0].1 == to
}

// Whether an element comes before another, by how many pairs each has, and then by number.
fn comes_before(pairs: &[(u64, u64)], element: u64, own: &[(u64, u64)], first: u64) -> bool
    ensures { result ≡ (nat_lt (length pairs.now) (length own.now) || ((length pairs.now == length own.now) && nat_lt element first)) }
{
    pairs.len() < own.len() || (pairs.len() == own.len() && element < first)
}

// Whether an element's own pairs lead to the end of each of the others. Both are in rising order of ends, and walked along once.
fn reaches_ends(own: &[(u64, u64)], first: u64, others: &[(u64, u64)]) -> bool
    requires own { list_all (λ p. p.0 == first) own.now ≡ true }
    requires rising { IsNonDecreasingBy (λ p. p.1) own.now }
    requires others { IsNonDecreasingBy (λ p. p.1) others.now }
    ensures { result ≡ list_all (λ q. is_paired own.now first q.1) others.now }
{
    let mut place = 0;
    for other in others {
        place = place_from(own, place, other.1);
        if !ends_at(own, place, other.1) {
            return false;
        }
    }
    true
}

// The first place from one on of a pair whose end isn't below an element.
fn place_from(pairs: &[(u64, u64)], start: usize, least: u64) -> usize
    requires { start ≤ length pairs.now }
    ensures within { result ≤ length pairs.now }
    ensures below { (k : ℕ) (d : ℕ × ℕ) → start ≤ k → k < result → (get_or pairs.now k d).1 < least }
    ensures there { (d : ℕ × ℕ) → result < length pairs.now → least ≤ (get_or pairs.now result d).1 }
{
    for place in start..pairs.len() {
        if pairs[place].1 >= least {
            return place;
        }
    }
    pairs.len()
}

// Whether the pair at a place ends in an element.
fn ends_at(pairs: &[(u64, u64)], place: usize, element: u64) -> bool
    ensures within { result ≡ true → place < length pairs.now }
    ensures met { result ≡ true → (d : ℕ × ℕ) → (get_or pairs.now place d).1 ≡ element }
    ensures missed { result ≡ false → (d : ℕ × ℕ) → place < length pairs.now → (get_or pairs.now place d).1 ≡ element → ⊥ }
{
    place < pairs.len() && pairs[place].1 == element
}
