// The skeletons of derivations.
ghost use Rattle.std.specs.Prelude.{◌≡◌, ◌<◌, ◌^◌, ◌+◌, List, [], ◌∷◌, ◌++◌, drop, IfOk, map};
ghost use Rattle.std.specs.Option.{option_copied};
ghost use Rattle.derivation_trees.specs.Trees.{node_of, nodes_of};
ghost use Rattle.derivation_trees.specs.declared.skeletons.Skeleton.{out-Skeleton};
ghost use Rattle.derivation_trees.specs.Skeletons as skeletons;
ghost use Rattle.derivation_trees.specs.Sketches as sketches;
ghost use Rattle.derivation_trees.specs.Stands.{found_in};
ghost use Rattle.derivation_trees.specs.SketchesHeld.{sketch_held, children_held, rule_in};

use crate::derive::rule_with;
use crate::setting::Setting;
use crate::skeletons::Skeleton;
use crate::trees::Tree;
use codeco_terms::{Element, Ground, Value};
use lists::List;
use std::alloc::Global;
use wiki_base::{Memory, WordId};

/// The feature of preterminals that holds the word.
const WORD_FEATURE: u16 = 3;

// A node of which some elements are sketched: the place there, the words and the children so far, and how many children
// are used.
#[derive(Drop)]
struct Sketch {
    place: u16,
    words: List<WordId>,
    children: List<Skeleton>,
    used: usize,
}

// The value of the feature that holds the word.
fn word_value(vals: &[(u16, Value)]) -> WordId
    ensures { result ≡ skeletons.word_among vals.now }
{
    for (feature, value) in vals {
        if *feature == WORD_FEATURE {
            return word_of(*value);
        }
    }
    WordId(0)
}

fn word_of(value: Value) -> WordId
    ensures { result ≡ skeletons.word_of_value value }
{
    match value {
        Value::Word(word) => word,
        _ => WordId(0),
    }
}

// The word of which the token with these readings is a form.
fn word_in(readings: &[Ground]) -> WordId
    ensures { result ≡ skeletons.word_in readings.now }
{
    match readings.first() {
        None => WordId(0),
        Some(reading) => word_value(reading.vals.as_slice()),
    }
}

// The word of which the token at the place is a form.
fn word_at(setting: &Setting<'_>, place: u16) -> WordId
    ensures { result ≡ skeletons.word_at setting.now place }
{
    match setting.readings.get(place as usize) {
        None => WordId(0),
        Some(readings) => word_in(readings.as_slice()),
    }
}

// The skeleton of the tree at the place.
#[cycle(sketch)]
pub fn sketch_of(
    alloc: Global,
    setting: &Setting<'_>,
    tree: &Tree,
    place: u16,
) -> Result<Skeleton, Memory>
    ensures { IfOk result (λ skeleton. skeleton ≡ sketches.sketch_of setting.now (node_of tree.now) place) }
{
    let sketch = sketch_body(alloc, setting, tree, place)?;
    finished(alloc, tree, place, sketch)
}

// The skeleton of a tree whose elements are sketched.
fn finished(alloc: Global, tree: &Tree, place: u16, sketch: Sketch) -> Result<Skeleton, Memory>
    ensures { IfOk result (λ skeleton. (left : List sketches.Later) → skeleton
        ≡ sketches.sketched (rule_in tree.now) (found_in tree.now) place (sketch_held left sketch)) }
{
    let found = copy_positions(alloc, tree.found.as_slice())?;
    let Sketch {
        place: end,
        words,
        children,
        used: _,
    } = sketch;
    Ok(Skeleton {
        rule: tree.rule,
        start: place,
        end,
        found,
        words,
        children,
    })
}

// The sketch of the tree after its elements.
#[cycle(sketch)]
fn sketch_body(
    alloc: Global,
    setting: &Setting<'_>,
    tree: &Tree,
    place: u16,
) -> Result<Sketch, Memory>
    ensures { IfOk result (λ sketch. sketch_held (children_held setting.now tree.now) sketch
        ≡ sketches.sketch_over setting.now (sketches.body_of setting.now.grammar (rule_in tree.now))
        (sketches.sketch_from place (children_held setting.now tree.now))) }
{
    let start = Sketch {
        place,
        words: List::new(alloc),
        children: List::new(alloc),
        used: 0,
    };
    match rule_with(setting.grammar, tree.rule) {
        None => Ok(start),
        Some(rule) => sketch_over(alloc, setting, rule.body.as_slice(), tree, start),
    }
}

fn copy_positions(alloc: Global, found: &[u16]) -> Result<List<u16>, Memory>
    ensures { IfOk result (λ copied. copied ≡ found.now) }
{
    let mut copied = List::new(alloc);
    for pos in found {
        copied.push(*pos)?;
    }
    Ok(copied)
}

// The sketch after the elements.
#[cycle(sketch)]
fn sketch_over(
    alloc: Global,
    setting: &Setting<'_>,
    body: &[Element],
    tree: &Tree,
    start: Sketch,
) -> Result<Sketch, Memory>
    ensures { IfOk result (λ sketch. sketch_held (children_held setting.now tree.now) sketch
        ≡ sketches.sketch_over setting.now body.now (sketch_held (children_held setting.now tree.now) start)) }
{
    let mut sketch = start;
    for element in body {
        sketch = sketch_on(alloc, setting, element, tree, sketch)?;
    }
    Ok(sketch)
}

// The sketch after one element.
#[cycle(sketch)]
fn sketch_on(
    alloc: Global,
    setting: &Setting<'_>,
    element: &Element,
    tree: &Tree,
    sketch: Sketch,
) -> Result<Sketch, Memory>
    ensures { IfOk result (λ after. sketch_held (children_held setting.now tree.now) after
        ≡ sketches.sketch_on setting.now element.now (sketch_held (children_held setting.now tree.now) sketch)) }
{
    match element {
        Element::Terminal(_) => sketch_token(sketch),
        Element::Preterminal(_) => {
            let word = word_at(setting, sketch.place);
            sketch_word(sketch, word)
        }
        Element::Sub(_) => {
            if sketch.used >= tree.children.len() {
                return Ok(sketch);
            }
            let child = sketch_of(alloc, setting, tree.children.get(sketch.used), sketch.place)?;
            sketch_child(sketch, child)
        }
        _ => Ok(sketch),
    }
}

fn sketch_token(sketch: Sketch) -> Result<Sketch, Memory>
    ensures { IfOk result (λ after. (left : List (sketches.Later)) → sketch_held left after
        ≡ sketches.sketch_token [] (sketch_held left sketch)) }
{
    let place = sketch.place.checked_add(1).ok_or(Memory)?;
    Ok(Sketch {
        place,
        words: sketch.words,
        children: sketch.children,
        used: sketch.used,
    })
}

fn sketch_word(sketch: Sketch, word: WordId) -> Result<Sketch, Memory>
    ensures { IfOk result (λ after. (left : List (sketches.Later)) → sketch_held left after
        ≡ sketches.sketch_token (word ∷ []) (sketch_held left sketch)) }
{
    let place = sketch.place.checked_add(1).ok_or(Memory)?;
    let Sketch {
        place: _,
        mut words,
        children,
        used,
    } = sketch;
    words.push(word)?;
    Ok(Sketch {
        place,
        words,
        children,
        used,
    })
}

fn sketch_child(sketch: Sketch, child: Skeleton) -> Result<Sketch, Memory>
    requires { sketch.used < 2 ^ 63 }
    ensures { IfOk result (λ after. after
        ≡ record { place = (out-Skeleton child).end; words = sketch.words; children = sketch.children ++ child ∷ []; used = sketch.used + 1 }) }
{
    let Sketch {
        place: _,
        words,
        mut children,
        used,
    } = sketch;
    let place = child.end;
    children.push(child)?;
    Ok(Sketch {
        place,
        words,
        children,
        used: used + 1,
    })
}
