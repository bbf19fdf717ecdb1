// Nodes of skeletons: their labels, their children, their words and the position of what they introduce.
ghost use Rattle.std.specs.Prelude.{◌≡◌, ◌<◌, None, Some, slice_get, slice_index, slice_index_or, length, map, IsTrue, MatchOption};
ghost use Rattle.std.specs.Option.{option_copied};
ghost use Rattle.derivation_trees.specs.declared.skeletons.Skeleton.{out-Skeleton};
ghost use Rattle.derivation_trees.specs.declared.skeletons.Skeleton.TheViews.{size-Skeleton};
ghost use Rattle.derivation_trees.specs.Derives as derives;
ghost use Rattle.derivation_trees.specs.Sketches as sketches;
ghost use Rattle.codeco_checked.specs.Labels as labels;
ghost use Rattle.drs_build.specs.Nodes as nodes;
ghost use Rattle.drs_build.specs.Order as order;

use codeco_checked::{Heads, Kind, label_row};
use codeco_terms::{Element, Grammar, Label, Rule};
use derivation_trees::Skeleton;
use wiki_base::WordId;

// The rule with the number, from 1.
fn rule_with(grammar: &Grammar, number: u16) -> Option<&Rule>
    ensures { option_copied result ≡ derives.rule_with grammar.now number }
{
    if number == 0 {
        None
    } else {
        grammar.rules().as_slice().get(number as usize - 1)
    }
}

pub(crate) fn label_of(grammar: &Grammar, number: u16) -> Option<Label>
    ensures { result ≡ nodes.label_of grammar.now number }
{
    match rule_with(grammar, number) {
        Some(rule) => rule.label,
        None => None,
    }
}

fn makes_mark(label: Label) -> bool
    ensures { result ≡ labels.makes_mark (labels.label_row label).heads }
{
    match label_row(label).heads {
        Heads::Only(kind) => matches!(kind, Kind::Mark),
        Heads::Clauses | Heads::Meanings => false,
    }
}

fn is_mark_rule(rule: &Rule) -> bool
    ensures { result ≡ labels.is_mark_rule rule.now }
{
    match rule.label {
        Some(label) => makes_mark(label),
        None => false,
    }
}

// Whether the phrases of the rule are no marks.
fn is_meant(grammar: &Grammar, number: u16) -> bool
    ensures { result ≡ nodes.is_meant grammar.now number }
{
    match rule_with(grammar, number) {
        Some(rule) => !is_mark_rule(rule),
        None => true,
    }
}

// The place of the child of this number among those that are no marks.
fn child_place(grammar: &Grammar, children: &[Skeleton], number: usize) -> Option<usize>
    ensures { MatchOption result
        (slice_get (nodes.meant_among grammar.now children.now) number ≡ None)
        (λ place. (place < length children.now) × (slice_get (nodes.meant_among grammar.now children.now) number ≡ slice_get children.now place)) }
{
    let mut left = number;
    for (place, child) in children.iter().enumerate() {
        if is_meant(grammar, child.rule) {
            if left == 0 {
                return Some(place);
            }
            left -= 1;
        }
    }
    None
}

/// The child at a place. It is smaller than the skeleton, so a recursion may go on in it.
pub(crate) fn child_at(skeleton: &Skeleton, place: usize) -> &Skeleton
    requires { place < length (out-Skeleton skeleton.now).children }
    ensures item { slice_get (out-Skeleton skeleton.now).children place ≡ Some result.now }
    ensures smaller { size-Skeleton result.now < size-Skeleton skeleton.now }
{
    &skeleton.children.as_slice()[place]
}

/// The child of this number among those that are no marks. It is smaller than the skeleton, so a recursion may go on in it.
pub(crate) fn child_of<'a>(
    grammar: &Grammar,
    skeleton: &'a Skeleton,
    number: usize,
) -> Option<&'a Skeleton>
    ensures { MatchOption result
        (slice_get (nodes.meant_children grammar.now skeleton.now) number ≡ None)
        (λ child. order.IsChild grammar.now skeleton.now number child.now) }
{
    match child_place(grammar, skeleton.children.as_slice(), number) {
        Some(place) => Some(child_at(skeleton, place)),
        None => None,
    }
}

/// The word of this number, or word 0 where there are no so many.
pub(crate) fn word_at(words: &[WordId], number: usize) -> WordId
    ensures { result ≡ slice_index_or words.now number nodes.no_word }
{
    match words.get(number) {
        Some(word) => *word,
        None => WordId(0),
    }
}

/// The first position, or 0 where there is none.
pub(crate) fn first_position(found: &[u16]) -> u16
    ensures { result ≡ slice_index found.now 0 }
{
    match found.first() {
        Some(position) => *position,
        None => 0,
    }
}

// The position of the referent that a body introduces, where it begins at a place, ends at another, and has these children.
fn introduced_at(body: &[Element], place: u16, children: &[Skeleton], end: u16) -> u16
    requires { IsTrue (order.leads body.now place (map order.span_of children.now) end) }
    ensures { result ≡ nodes.introduced_at body.now place (nodes.ends_of children.now) }
{
    let Some((element, rest)) = body.split_first() else {
        return end;
    };
    match element {
        Element::Terminal(_) => introduced_at(rest, place + 1, children, end),
        Element::Preterminal(_) => introduced_at(rest, place + 1, children, end),
        Element::Sub(_) => match children.split_first() {
            Some((child, others)) => introduced_at(rest, child.end, others, end),
            None => introduced_at(rest, place, children, end),
        },
        Element::Forward(_) => place,
        Element::Strong(_) => place,
        Element::Position(_) => introduced_at(rest, place, children, end),
        Element::Opener => introduced_at(rest, place, children, end),
        Element::Back(_, _) => introduced_at(rest, place, children, end),
        Element::NoBack(_) => introduced_at(rest, place, children, end),
    }
}

fn body_of(grammar: &Grammar, number: u16) -> &[Element]
    ensures { result.now ≡ sketches.body_of grammar.now number }
{
    match rule_with(grammar, number) {
        Some(rule) => rule.body.as_slice(),
        None => &[],
    }
}

/// The position of the referent that the skeleton's own rule introduces.
pub(crate) fn position(grammar: &Grammar, skeleton: &Skeleton) -> u16
    requires { IsTrue (order.is_in_order grammar.now skeleton.now) }
    ensures { result ≡ nodes.position_in grammar.now skeleton.now }
{
    introduced_at(
        body_of(grammar, skeleton.rule),
        skeleton.start,
        skeleton.children.as_slice(),
        skeleton.end,
    )
}
