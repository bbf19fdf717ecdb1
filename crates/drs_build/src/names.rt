// The names of a skeleton, with the positions at which they are introduced.
ghost use Rattle.std.specs.Prelude.{◌≡◌, ◌++◌, IfOk, OnOk, IsTrue};
ghost use Rattle.codeco_checked.specs.Labels as labels;
ghost use Rattle.drs_build.specs.Nodes as nodes;
ghost use Rattle.drs_build.specs.Order.{is_in_order};

use crate::nodes::{child_at, label_of, position, word_at};
use codeco_checked::{Words, label_row};
use codeco_terms::{Grammar, Label};
use derivation_trees::Skeleton;
use lists::List;
use logic_terms::Thing;
use std::alloc::Global;
use wiki_base::{Memory, WordId};

fn is_name(words: Words) -> bool
    ensures { result ≡ nodes.is_name words }
{
    matches!(words, Words::Name)
}

fn is_naming(label: Option<Label>) -> bool
    ensures { result ≡ nodes.is_naming label }
{
    match label {
        Some(label) => is_name(label_row(label).words),
        None => false,
    }
}

// Adds the name that the skeleton's own rule introduces, if it does.
fn push_own(
    names: &mut List<(u16, WordId)>,
    grammar: &Grammar,
    skeleton: &Skeleton,
) -> Result<(), Memory>
    requires { IsTrue (is_in_order grammar.now skeleton.now) }
    ensures { OnOk result (names.new ≡ names.old ++ nodes.own_name_in grammar.now skeleton.now) }
{
    if is_naming(label_of(grammar, skeleton.rule)) {
        names.push((
            position(grammar, skeleton),
            word_at(skeleton.words.as_slice(), 0),
        ))?;
    }
    Ok(())
}

// Adds the names of the skeleton at the end.
fn push_names(
    names: &mut List<(u16, WordId)>,
    grammar: &Grammar,
    skeleton: &Skeleton,
) -> Result<(), Memory>
    requires { IsTrue (is_in_order grammar.now skeleton.now) }
    ensures { OnOk result (names.new ≡ names.old ++ nodes.names_of grammar.now skeleton.now) }
{
    push_own(names, grammar, skeleton)?;
    for place in 0..skeleton.children.len() {
        push_names(names, grammar, child_at(skeleton, place))?;
    }
    Ok(())
}

/// The names of the skeleton, each with the position at which it is introduced.
pub(crate) fn names_of(
    alloc: Global,
    grammar: &Grammar,
    skeleton: &Skeleton,
) -> Result<List<(u16, WordId)>, Memory>
    requires { IsTrue (is_in_order grammar.now skeleton.now) }
    ensures { IfOk result (λ names. names ≡ nodes.names_of grammar.now skeleton.now) }
{
    let mut names = List::new(alloc);
    push_names(&mut names, grammar, skeleton)?;
    Ok(names)
}

/// The name that is introduced at the position, else the referent of the position.
pub(crate) fn term_at(names: &[(u16, WordId)], position: u16) -> Thing
    ensures { result ≡ nodes.term_at names.now position }
{
    for (introduced, name) in names {
        if *introduced == position {
            return Thing::Name(*name);
        }
    }
    Thing::Ref(position)
}
