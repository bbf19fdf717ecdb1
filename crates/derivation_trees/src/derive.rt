// Where trees lead.
ghost use Rattle.std.specs.Prelude.{◌≡◌, List, All, drop, false, IfOk, IfSome, option_map};
ghost use Rattle.std.specs.Option.{option_copied};
ghost use Rattle.std.specs.List.{list_all};
ghost use Rattle.derivation_trees.specs.Trees.{node_of, nodes_of};
ghost use Rattle.derivation_trees.specs.Derives as derives;
ghost use Rattle.derivation_trees.specs.Stands.{Begins, IsLimited, IsStand, IsWithin, at_of, children_of, found_in, is_sub, stand_of, standing, values_in};

use crate::instances::under;
use crate::setting::Setting;
use crate::stand::{Progress, pass};
use crate::trees::Tree;
use crate::variables::{is_instance, own_values};
use codeco_terms::{Element, Grammar, Rule, Value};
use scopes::{Access, Test};
use std::alloc::Global;
use wiki_base::Memory;

/// The rule with the number, from 1.
pub fn rule_with(grammar: &Grammar, number: u16) -> Option<&Rule>
    ensures { option_copied result ≡ derives.rule_with grammar.now number }
{
    if number == 0 {
        None
    } else {
        grammar.rules().as_slice().get(number as usize - 1)
    }
}

/// Whether the names are equal, and each feature that both have has the same value.
pub fn fits(head: &Test, asked: &Test) -> bool
    ensures { result ≡ derives.fits head.now asked.now }
{
    head.name == asked.name && all_fit(head.values.as_slice(), asked.values.as_slice())
}

fn all_fit(values: &[(u16, Value)], asked: &[(u16, Value)]) -> bool
    ensures { result
        ≡ list_all (λ p. list_all (derives.same_where_both p) asked.now) values.now }
{
    values.iter().all(|p| fits_all(*p, asked))
}

fn fits_all(one: (u16, Value), asked: &[(u16, Value)]) -> bool
    ensures { result ≡ list_all (derives.same_where_both one) asked.now }
{
    asked
        .iter()
        .all(|other| one.0 != other.0 || one.1.is(other.1))
}

// Where the tree leads as a phrase for the category, from the place and the list.
#[cycle(leads)]
pub(crate) fn leads(
    alloc: Global,
    setting: &Setting<'_>,
    tree: &Tree,
    asked: &Test,
    place: u16,
    list: &Access,
) -> Result<Option<(u16, Access)>, Memory>
    requires { IsLimited setting.now.grammar }

    ensures is { IfOk result (λ led. option_map at_of led
        ≡ derives.phrase_of setting.now (node_of tree.now) asked.now (at_of (place, list.now))) }
    ensures grows { IfOk result (λ led. IfSome led (λ r. Begins list.now r.1)) }
{
    let Some(rule) = rule_with(setting.grammar, tree.rule) else {
        return Ok(None);
    };
    let Some(stand) = begin(alloc, setting, rule, tree, asked, place, list)? else {
        return Ok(None);
    };
    match run(alloc, setting, rule.body.as_slice(), tree, stand)? {
        None => Ok(None),
        Some((stand, used)) => end(rule, list, stand, used >= tree.children.len()),
    }
}

// The stand before the first element, where the rule and the instance fit.
fn begin<'a>(
    alloc: Global,
    setting: &Setting<'_>,
    rule: &Rule,
    tree: &'a Tree,
    asked: &Test,
    place: u16,
    list: &Access,
) -> Result<Option<Progress<'a>>, Memory>
    ensures is { IfOk result (IsStand (λ children.
        derives.begun setting.now rule.now (values_in tree.now) (found_in tree.now) children asked.now (at_of (place, list.now)))) }
    ensures same { IfOk result (λ begun. IfSome begun (λ stand. stand.list ≡ list.now)) }
{
    let values = tree.values.as_slice();
    let head = under(alloc, values, &rule.head)?;
    if !fits(&head, asked) {
        return Ok(None);
    }
    if !is_instance(alloc, setting, rule, values)? {
        return Ok(None);
    }
    let own = own_values(alloc, rule, values)?;
    Ok(Some(Progress {
        place,
        list: list.share()?,
        found: tree.found.as_slice(),
        own,
    }))
}

// Where the elements lead, and how many children they use.
#[cycle(leads)]
fn run<'a>(
    alloc: Global,
    setting: &Setting<'_>,
    body: &[Element],
    tree: &Tree,
    start: Progress<'a>,
) -> Result<Option<(Progress<'a>, usize)>, Memory>
    requires limited { IsLimited setting.now.grammar }
    requires within { All (IsWithin setting.now.grammar) body.now }

    ensures is { IfOk result (λ led. option_map (standing (children_of setting.now tree.now)) led
        ≡ derives.run setting.now (values_in tree.now) body.now (stand_of (children_of setting.now tree.now) start.entry)) }
    ensures grows { IfOk result (λ led. IfSome led (λ r. Begins start.entry.list r.0.list)) }
{
    let mut stand = start;
    let mut used = 0;
    for element in body {
        match step(alloc, setting, element, tree, used, stand)? {
            None => return Ok(None),
            Some((next, count)) => {
                stand = next;
                used = count;
            }
        }
    }
    Ok(Some((stand, used)))
}

// Where one element leads.
#[cycle(leads)]
fn step<'a>(
    alloc: Global,
    setting: &Setting<'_>,
    element: &Element,
    tree: &Tree,
    used: usize,
    stand: Progress<'a>,
) -> Result<Option<(Progress<'a>, usize)>, Memory>
    requires limited { IsLimited setting.now.grammar }
    requires within { IsWithin setting.now.grammar element.now }

    ensures is { IfOk result (λ led. option_map (standing (children_of setting.now tree.now)) led
        ≡ derives.pass setting.now (values_in tree.now) element.now (stand_of (drop used (children_of setting.now tree.now)) stand.entry)) }
    ensures grows { IfOk result (λ led. IfSome led (λ r. Begins stand.entry.list r.0.list)) }
{
    match element {
        Element::Sub(category) => {
            if used >= tree.children.len() {
                return Ok(None);
            }
            let asked = under(alloc, tree.values.as_slice(), category)?;
            let child = tree.children.get(used);
            match leads(alloc, setting, child, &asked, stand.place, &stand.list)? {
                None => Ok(None),
                Some((place, list)) => Ok(Some((
                    Progress {
                        place,
                        list,
                        found: stand.found,
                        own: stand.own,
                    },
                    used + 1,
                ))),
            }
        }
        _ => plain_step(alloc, setting, element, tree, used, stand),
    }
}

// Where an element leads that is no category.
fn plain_step<'a>(
    alloc: Global,
    setting: &Setting<'_>,
    element: &Element,
    tree: &Tree,
    used: usize,
    stand: Progress<'a>,
) -> Result<Option<(Progress<'a>, usize)>, Memory>
    requires within { IsWithin setting.now.grammar element.now }
    requires plain { is_sub element.now ≡ false }

    ensures is { IfOk result (λ led. option_map (standing (children_of setting.now tree.now)) led
        ≡ derives.pass setting.now (values_in tree.now) element.now (stand_of (drop used (children_of setting.now tree.now)) stand.entry)) }
    ensures grows { IfOk result (λ led. IfSome led (λ r. Begins stand.entry.list r.0.list)) }
{
    match pass(alloc, setting, tree.values.as_slice(), element, stand)? {
        None => Ok(None),
        Some(next) => Ok(Some((next, used))),
    }
}

// The end of a phrase: no found position and no child is left over, and a scope-closing rule closes the list.
fn end(
    rule: &Rule,
    begun: &Access,
    stand: Progress<'_>,
    all_used: bool,
) -> Result<Option<(u16, Access)>, Memory>
    requires { Begins begun.now stand.list }
    ensures is { IfOk result (λ ended. (children : List derives.Phrase) → derives.is_none_left children ≡ all_used
        → option_map at_of ended ≡ derives.ended rule.now begun.now (stand_of children stand.entry)) }
    ensures grows { IfOk result (λ ended. IfSome ended (λ r. Begins begun.now r.1)) }
{
    let Progress {
        place,
        list,
        found,
        own: _,
    } = stand;
    if !found.is_empty() || !all_used {
        return Ok(None);
    }
    let list = closed(rule, begun, list)?;
    Ok(Some((place, list)))
}

/// The list after a phrase that began with a list: closed where the rule is scope-closing.
pub fn closed(rule: &Rule, begun: &Access, list: Access) -> Result<Access, Memory>
    requires { Begins begun.now list }
    ensures is { IfOk result (λ after. after ≡ derives.list_after rule.now.closing begun.now list) }
    ensures grows { IfOk result (λ after. Begins begun.now after) }
{
    if rule.closing {
        list.close(begun)
    } else {
        Ok(list)
    }
}
