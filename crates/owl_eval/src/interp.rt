// Interpretations.
ghost use Rattle.std.specs.Prelude.{◌≡◌, ◌==◌, ℕ, Bool, [], ◌<◌, ◌&&◌, length, IsTrue, IfOk, Some, slice_get, unwrap_or, nat_lt};
ghost use Rattle.std.specs.Option.{option_map};
ghost use Rattle.std.specs.Map.{lookup};
ghost use Rattle.std.specs.Ordering.{nat_cmp};
ghost use Rattle.std.specs.List.{list_any, list_all};
ghost use Rattle.logic_terms.specs.Concept.{TransitiveProperty};
ghost use Rattle.logic_terms.specs.Interpretation.{is_interpretation, is_word, words_rise, element_of, has_element, has_pair, relates};
ghost use Rattle.logic_terms.specs.Meaning.{implies, some_below, each_below, holds};
ghost use Rattle.owl_eval.specs.Given.{given, lists_in, AreArranged, MeansSame};
ghost use Rattle.owl_eval.specs.Pairs.{pair_cmp, pairs_along, leads_on};

use crate::extent::Extent;
use crate::relation::Relation;
use logic_terms::Role;
use std::alloc::Global;
use std::marker::Model;
use wiki_base::{Memory, WordId};

/// A finite interpretation, after OWL 2, Direct Semantics: its elements are the numbers below its size, and it gives
/// each name an element, each class word elements and each relation word pairs of elements. A word that it lacks stands
/// for element 0, no elements, or no pairs.
#[derive(Drop)]
pub struct Interp {
    size: u64,
    names: Vec<(WordId, u64)>,
    classes: Vec<Extent>,
    relations: Vec<Relation>,
}

impl Model for Interp {
    ghost use Rattle.std.specs.Prelude.{◌≡◌, true};
    ghost use Rattle.logic_terms.specs.Interpretation.{Interpretation, is_interpretation};

    ghost Value = { Interpretation };

    ghost view = { λ i. record { size = i.size; names = i.names.items; classes = i.classes.items; relations = i.relations.items } };

    ghost invariant = { λ i. is_interpretation (record { size = i.size; names = i.names.items; classes = i.classes.items; relations = i.relations.items })
        ≡ true };
}

impl Interp {
    /// The interpretation of a size of at least 1, with the element of each name, the elements of each class word and
    /// the pairs of each relation word. The words of each list rise, and every element is below the size.
    /// `fits` tests these conditions.
    pub fn new(
        alloc: Global,
        size: u64,
        names: Vec<(WordId, u64)>,
        classes: Vec<(WordId, Vec<u64>)>,
        relations: Vec<(WordId, Vec<(u64, u64)>)>,
    ) -> Result<Interp, Memory>
        requires { IsTrue (is_interpretation (given size names.items classes.items relations.items)) }
        ensures means { IfOk result (λ made. MeansSame (given size names.items classes.items relations.items) made) }

        // How it is kept: the lists that were given, each in rising order.
        ensures size { IfOk result (λ made. made.size ≡ size) }
        ensures names { IfOk result (λ made. made.names ≡ names.items) }
        ensures classes { IfOk result (λ made. AreArranged nat_cmp (lists_in classes.items) made.classes) }
        ensures relations { IfOk result (λ made. AreArranged pair_cmp (lists_in relations.items) made.relations) }
    {
        let classes = extents(alloc, classes)?;
        let relations = indexed(alloc, relations)?;
        Ok(Interp {
            size,
            names,
            classes,
            relations,
        })
    }

    /// Whether these lists make an interpretation, which is what `new` asks of them.
    pub fn fits(
        size: u64,
        names: &[(WordId, u64)],
        classes: &[(WordId, Vec<u64>)],
        relations: &[(WordId, Vec<(u64, u64)>)],
    ) -> bool
        ensures { result ≡ is_interpretation (given size names.now classes.now relations.now) }
    {
        size > 0
            && words_rise(names)
            && lists_rise(classes)
            && lists_rise(relations)
            && names_fit(size, names)
            && classes_fit(size, classes)
            && relations_fit(size, relations)
    }

    /// An equal interpretation in memory of its own.
    pub fn copy(&self) -> Result<Interp, Memory>
        ensures { IfOk result (λ copied. copied ≡ self.now) }
    {
        let alloc = *self.names.allocator();
        let names = Vec::from_slice(alloc, self.names.as_slice())?;
        let classes = copied_extents(alloc, self.classes.as_slice())?;
        let relations = copied_relations(alloc, self.relations.as_slice())?;
        Ok(Interp {
            size: self.size,
            names,
            classes,
            relations,
        })
    }

    /// The number of elements, at least 1.
    pub fn size(&self) -> u64
        ensures size { result ≡ self.now.size }
        ensures some { 0 < result }
    {
        self.size
    }

    /// The names in order of word number, each with its element.
    pub fn names(&self) -> &[(WordId, u64)]
        ensures { result.now ≡ self.now.names }
    {
        self.names.as_slice()
    }

    /// How many class words it has.
    pub fn class_count(&self) -> usize
        ensures { result ≡ length self.now.classes }
    {
        self.classes.len()
    }

    /// The class word at a place below `class_count`, with its elements in rising order.
    pub fn class_at(&self, place: usize) -> (WordId, &[u64])
        requires { place < length self.now.classes }
        ensures { slice_get self.now.classes place ≡ Some (result.0, result.1.now) }
    {
        let extent = &self.classes[place];
        (extent.word(), extent.elements())
    }

    /// How many relation words it has.
    pub fn relation_count(&self) -> usize
        ensures { result ≡ length self.now.relations }
    {
        self.relations.len()
    }

    /// The relation word at a place below `relation_count`, with its pairs in rising order.
    pub fn relation_at(&self, place: usize) -> (WordId, &[(u64, u64)])
        requires { place < length self.now.relations }
        ensures { slice_get self.now.relations place ≡ Some (result.0, result.1.now) }
    {
        let relation = &self.relations[place];
        (relation.word(), relation.pairs())
    }

    // The interpretation itself, with what is true of every one.
    pub(crate) fn lent(&self) -> &Interp
        ensures same { result.now ≡ self.now }
        ensures sound { IsTrue (is_interpretation self.now) }
    {
        let _ = &self.size;
        self
    }

    // The allocator that it keeps.
    pub(crate) fn allocator(&self) -> Global {
        *self.names.allocator()
    }

    /// The element of a name; 0 where it has none.
    pub fn element(&self, name: WordId) -> u64
        ensures { result ≡ element_of self.now name }
    {
        element_in(self.names.as_slice(), name)
    }

    /// Whether an element is in a class word.
    pub fn has_element(&self, word: WordId, element: u64) -> bool
        ensures { result ≡ has_element self.now word element }
    {
        match extent_in(self.classes.as_slice(), word) {
            Some(extent) => extent.has(element),
            None => false,
        }
    }

    /// Whether two elements are a pair of a relation word.
    pub fn has_pair(&self, word: WordId, from: u64, to: u64) -> bool
        ensures { result ≡ has_pair self.now word from to }
    {
        match relation_in(self.relations.as_slice(), word) {
            Some(relation) => relation.has(from, to),
            None => false,
        }
    }

    /// Whether two elements are a pair of a role, which swaps the pairs of its word where it is inverted.
    pub fn relates(&self, role: Role, from: u64, to: u64) -> bool
        ensures { result ≡ relates self.now role from to }
    {
        if role.inverted {
            self.has_pair(role.id, to, from)
        } else {
            self.has_pair(role.id, from, to)
        }
    }

    // The elements of a class word: a test of each of them is one of the elements that are in the word.
    pub(crate) fn elements(&self, word: WordId) -> &[u64]
        ensures { (test : ℕ → Bool) → list_all test result.now ≡ each_below self.now.size (λ x. implies (has_element self.now word x) (test x)) }
    {
        elements_in(self.classes.as_slice(), word)
    }

    // Whether a relation word is transitive: where it relates one element to another and that to a third, it relates the
    // one to the third.
    pub(crate) fn is_transitive(&self, word: WordId) -> bool
        ensures { result ≡ holds self.now (TransitiveProperty word) }
    {
        transitive_in(self.relations.as_slice(), word)
    }

    /// The pairs by which an element has its successors by a role: that element, then the successor.
    pub fn successors(&self, role: Role, element: u64) -> &[(u64, u64)]
        ensures some { (test : ℕ → Bool) → list_any (λ p. test p.1) result.now ≡ some_below self.now.size (λ y. relates self.now role element y && test y) }
        ensures each { (test : ℕ → Bool)
            → list_all (λ p. test p.1) result.now ≡ each_below self.now.size (λ y. implies (relates self.now role element y) (test y)) }
    {
        successors_in(self.relations.as_slice(), role, element)
    }
}

// The element of a name among these.
fn element_in(names: &[(WordId, u64)], name: WordId) -> u64
    requires { IsTrue (words_rise names.now) }
    ensures { result ≡ unwrap_or (lookup (is_word name) names.now) 0 }
{
    match names.binary_search_by_key(&name.0, |entry| entry.0.0) {
        Ok(place) => names[place].1,
        Err(_) => 0,
    }
}

// The extent of a class word among these.
fn extent_in(extents: &[Extent], word: WordId) -> Option<&Extent>
    requires { IsTrue (words_rise extents.now) }
    ensures { option_map (λ e. e.now.1) result ≡ lookup (is_word word) extents.now }
{
    match extents.binary_search_by_key(&word.0, |extent| extent.word().0) {
        Ok(place) => Some(&extents[place]),
        Err(_) => None,
    }
}

// The elements of a class word among these.
fn elements_in(extents: &[Extent], word: WordId) -> &[u64]
    requires { IsTrue (words_rise extents.now) }
    ensures { result.now ≡ unwrap_or (lookup (is_word word) extents.now) [] }
{
    match extent_in(extents, word) {
        Some(extent) => extent.elements(),
        None => &[],
    }
}

// The relation of a relation word among these.
fn relation_in(relations: &[Relation], word: WordId) -> Option<&Relation>
    requires { IsTrue (words_rise relations.now) }
    ensures { option_map (λ r. r.now.1) result ≡ lookup (is_word word) relations.now }
{
    match relations.binary_search_by_key(&word.0, |relation| relation.word().0) {
        Ok(place) => Some(&relations[place]),
        Err(_) => None,
    }
}

// Whether the pairs of a relation word among these lead on; those of a word without any do.
fn transitive_in(relations: &[Relation], word: WordId) -> bool
    requires { IsTrue (words_rise relations.now) }
    ensures { result ≡ leads_on (unwrap_or (lookup (is_word word) relations.now) []) }
{
    match relation_in(relations, word) {
        Some(relation) => relation.is_transitive(),
        None => true,
    }
}

// The pairs that begin with an element, of a role among these.
fn successors_in(relations: &[Relation], role: Role, element: u64) -> &[(u64, u64)]
    requires { IsTrue (words_rise relations.now) }
    ensures some { (test : ℕ → Bool) → list_any (λ p. test p.1) result.now ≡ list_any (λ p. (p.0 == element) && test p.1) (pairs_along role relations.now) }
    ensures each { (test : ℕ → Bool) → list_all (λ p. test p.1) result.now
        ≡ list_all (λ p. implies (p.0 == element) (test p.1)) (pairs_along role relations.now) }
{
    match relation_in(relations, role.id) {
        None => &[],
        Some(relation) if role.inverted => relation.ending_at(element),
        Some(relation) => relation.starting_at(element),
    }
}

// Each class word with its elements in order.
fn extents(alloc: Global, classes: Vec<(WordId, Vec<u64>)>) -> Result<Vec<Extent>, Memory>
    ensures { IfOk result (λ made. AreArranged nat_cmp (lists_in classes.items) made.items) }
{
    let mut made = Vec::new(alloc);
    for (word, elements) in classes {
        made.push(Extent::new(word, elements))?;
    }
    Ok(made)
}

// Each relation word with its pairs in order.
fn indexed(
    alloc: Global,
    relations: Vec<(WordId, Vec<(u64, u64)>)>,
) -> Result<Vec<Relation>, Memory>
    ensures { IfOk result (λ made. AreArranged pair_cmp (lists_in relations.items) made.items) }
{
    let mut made = Vec::new(alloc);
    for (word, pairs) in relations {
        made.push(Relation::new(alloc, word, pairs)?)?;
    }
    Ok(made)
}

// Whether the words rise.
fn words_rise<T>(entries: &[(WordId, T)]) -> bool
    ensures { result ≡ words_rise entries.now }
{
    let Some((first, rest)) = entries.split_first() else {
        return true;
    };
    let mut word = first.0;
    for entry in rest {
        if entry.0.0 <= word.0 {
            return false;
        }
        word = entry.0;
    }
    true
}

// Whether the words of lists rise.
fn lists_rise<T>(entries: &[(WordId, Vec<T>)]) -> bool
    ensures { result ≡ words_rise (lists_in entries.now) }
{
    words_rise(entries)
}

// Whether each name has an element.
fn names_fit(size: u64, names: &[(WordId, u64)]) -> bool
    ensures { result ≡ list_all (λ e. nat_lt e.1 size) names.now }
{
    names.iter().all(|entry| entry.1 < size)
}

// Whether each class word has elements alone.
fn classes_fit(size: u64, classes: &[(WordId, Vec<u64>)]) -> bool
    ensures { result ≡ list_all (λ e. list_all (λ x. nat_lt x size) e.1) (lists_in classes.now) }
{
    for entry in classes {
        if !are_below(size, &entry.1) {
            return false;
        }
    }
    true
}

// Whether each relation word has pairs of elements alone.
fn relations_fit(size: u64, relations: &[(WordId, Vec<(u64, u64)>)]) -> bool
    ensures { result ≡ list_all (λ e. list_all (λ p. nat_lt p.0 size && nat_lt p.1 size) e.1) (lists_in relations.now) }
{
    for entry in relations {
        if !pairs_are_below(size, &entry.1) {
            return false;
        }
    }
    true
}

// Whether these are elements.
fn are_below(size: u64, elements: &[u64]) -> bool
    ensures { result ≡ list_all (λ x. nat_lt x size) elements.now }
{
    elements.iter().all(|element| *element < size)
}

// Whether these are pairs of elements.
fn pairs_are_below(size: u64, pairs: &[(u64, u64)]) -> bool
    ensures { result ≡ list_all (λ p. nat_lt p.0 size && nat_lt p.1 size) pairs.now }
{
    pairs.iter().all(|pair| pair.0 < size && pair.1 < size)
}

fn copied_extents(alloc: Global, extents: &[Extent]) -> Result<Vec<Extent>, Memory>
    ensures { IfOk result (λ copied. copied.items ≡ extents.now) }
{
    let mut copied = Vec::new(alloc);
    for extent in extents {
        copied.push(extent.copy(alloc)?)?;
    }
    Ok(copied)
}

fn copied_relations(alloc: Global, relations: &[Relation]) -> Result<Vec<Relation>, Memory>
    ensures { IfOk result (λ copied. copied.items ≡ relations.now) }
{
    let mut copied = Vec::new(alloc);
    for relation in relations {
        copied.push(relation.copy(alloc)?)?;
    }
    Ok(copied)
}
