// Whether tokens have a partial derivation.
ghost use Rattle.std.specs.Prelude.{◌≡◌, ◌≤◌, ◌+◌, ◌↔◌, ◌∷◌, [], All, IsTrue, IfOk, length, map};
ghost use Rattle.std.specs.List.{list_any};
ghost use Rattle.derivation_trees.specs.Partial.{IsBeginning};
ghost use Rattle.derivation_trees.specs.Sentences.{setting_of};
ghost use Rattle.derivation_trees.specs.Stands.{IsLimited, IsWithin};
ghost use Rattle.derivations.specs.Beginnings as beginnings;
ghost use Rattle.derivations.specs.Enumeration as enumeration;
ghost use Rattle.derivations.specs.Paths.{path_of, start_of};
ghost use Rattle.wiki_base.specs.declared.tokens.TheConstants.{MOST_TOKENS};

use crate::choices::{Bound, instances};
use crate::least::{depth_for, rule_count, text, token_count};
use crate::listing::{may_begin, opened, step_all};
use crate::paths::Path;
use crate::sought::Sought;
use codeco_checked::CheckedGrammar;
use codeco_terms::{Element, Rule, Value};
use derivation_trees::{Setting, readings_of, under};
use lexicon::Lexicon;
use lists::List;
use scopes::Access;
use std::alloc::Global;
use wiki_base::{Memory, Token};

// Whether the path stands at the end of the tokens.
fn is_at_end(setting: &Setting<'_>, path: &Path) -> bool
    ensures { result ≡ beginnings.is_at_end setting.now (path_of path.now) }
{
    path.place as usize == setting.tokens.len()
}

fn any_at_end(setting: &Setting<'_>, paths: &[Path]) -> bool
    ensures { result ≡ list_any (beginnings.is_at_end setting.now) (map path_of paths.now) }
{
    for path in paths {
        if is_at_end(setting, path) {
            return true;
        }
    }
    false
}

// Whether the element is a category of which a cut-off child ends at the end of the tokens.
#[cycle(cut)]
fn enters(
    alloc: Global,
    setting: &Setting<'_>,
    depth: usize,
    values: &[(u8, Value)],
    element: &Element,
    path: &Path,
) -> Result<bool, Memory>
    requires { IsLimited setting.now.grammar }

    ensures { IfOk result (λ yes. yes
        ≡ beginnings.enters (beginnings.cut_of setting.now depth) values.now element.now (path_of path.now)) }
{
    match element {
        Element::Sub(category) => {
            let wanted = under(alloc, values, category)?;
            let sought = Sought {
                wanted: &wanted,
                place: path.place,
                list: &path.list,
            };
            cut_of(alloc, setting, depth, &sought)
        }
        _ => Ok(false),
    }
}

#[cycle(cut)]
fn any_enters(
    alloc: Global,
    setting: &Setting<'_>,
    depth: usize,
    values: &[(u8, Value)],
    element: &Element,
    paths: &[Path],
) -> Result<bool, Memory>
    requires { IsLimited setting.now.grammar }

    ensures { IfOk result (λ yes. yes
        ≡ list_any (beginnings.enters (beginnings.cut_of setting.now depth) values.now element.now) (map path_of paths.now)) }
{
    for path in paths {
        if enters(alloc, setting, depth, values, element, path)? {
            return Ok(true);
        }
    }
    Ok(false)
}

// Whether the path goes on to the end of the tokens over some of the elements.
#[cycle(cut)]
fn goes_from(
    alloc: Global,
    setting: &Setting<'_>,
    depth: usize,
    values: &[(u8, Value)],
    body: &[Element],
    start: Path,
) -> Result<bool, Memory>
    requires limited { IsLimited setting.now.grammar }
    requires within { All (IsWithin setting.now.grammar) body.now }

    ensures { IfOk result (λ yes. yes ≡ beginnings.goes_from setting.now
        (enumeration.trees_of setting.now depth) (beginnings.cut_of setting.now depth) values.now body.now (path_of start ∷ [])) }
{
    let mut paths = List::new(alloc);
    paths.push(start)?;
    for element in body {
        if any_at_end(setting, paths.as_slice()) {
            return Ok(true);
        }
        if any_enters(alloc, setting, depth, values, element, paths.as_slice())? {
            return Ok(true);
        }
        paths = step_all(alloc, setting, depth, values, element, paths.as_slice())?;
    }
    Ok(any_at_end(setting, paths.as_slice()))
}

// Whether there is a cut-off node with the rule and the instance.
#[cycle(cut)]
fn instance_cut(
    alloc: Global,
    setting: &Setting<'_>,
    depth: usize,
    sought: &Sought<'_>,
    rule: &Rule,
    values: &[(u8, Value)],
) -> Result<bool, Memory>
    requires limited { IsLimited setting.now.grammar }
    requires within { All (IsWithin setting.now.grammar) rule.now.body }

    ensures { IfOk result (λ yes. yes ≡ beginnings.instance_cut setting.now (enumeration.trees_of setting.now depth)
        (beginnings.cut_of setting.now depth) sought.now.wanted.now (start_of sought.now) rule.now values.now) }
{
    if !may_begin(alloc, setting, rule, sought.wanted, values)? {
        return Ok(false);
    }
    let start = opened(alloc, rule, values, sought.place, sought.list)?;
    goes_from(alloc, setting, depth, values, rule.body.as_slice(), start)
}

#[cycle(cut)]
fn any_instance(
    alloc: Global,
    setting: &Setting<'_>,
    depth: usize,
    sought: &Sought<'_>,
    rule: &Rule,
    made: &[Bound],
) -> Result<bool, Memory>
    requires limited { IsLimited setting.now.grammar }
    requires within { All (IsWithin setting.now.grammar) rule.now.body }

    ensures { IfOk result (λ yes. yes ≡ list_any (beginnings.instance_cut setting.now (enumeration.trees_of setting.now depth)
        (beginnings.cut_of setting.now depth) sought.now.wanted.now (start_of sought.now) rule.now) made.now) }
{
    for values in made {
        if instance_cut(alloc, setting, depth, sought, rule, values.as_slice())? {
            return Ok(true);
        }
    }
    Ok(false)
}

// Whether there is a cut-off node with the rule.
#[cycle(cut)]
fn rule_cut(
    alloc: Global,
    setting: &Setting<'_>,
    depth: usize,
    sought: &Sought<'_>,
    rule: &Rule,
) -> Result<bool, Memory>
    requires limited { IsLimited setting.now.grammar }
    requires within { All (IsWithin setting.now.grammar) rule.now.body }

    ensures { IfOk result (λ yes. yes ≡ beginnings.rule_cut setting.now (enumeration.trees_of setting.now depth)
        (beginnings.cut_of setting.now depth) sought.now.wanted.now (start_of sought.now) rule.now) }
{
    if rule.head.name != sought.wanted.name {
        return Ok(false);
    }
    let made = instances(alloc, setting, rule, sought.wanted)?;
    any_instance(alloc, setting, depth, sought, rule, made.as_slice())
}

#[cycle(cut)]
fn any_rule(
    alloc: Global,
    setting: &Setting<'_>,
    depth: usize,
    sought: &Sought<'_>,
    rules: &[Rule],
) -> Result<bool, Memory>
    requires limited { IsLimited setting.now.grammar }
    requires within { All (λ rule. All (IsWithin setting.now.grammar) rule.body) rules.now }

    ensures { IfOk result (λ yes. yes ≡ list_any (beginnings.rule_cut setting.now (enumeration.trees_of setting.now depth)
        (beginnings.cut_of setting.now depth) sought.now.wanted.now (start_of sought.now)) rules.now) }
{
    for rule in rules {
        if rule_cut(alloc, setting, depth, sought, rule)? {
            return Ok(true);
        }
    }
    Ok(false)
}

// Whether there is a cut-off node for the category from the place and the list, up to the depth.
#[tactic(auto, using(crate::proofs::LoopLemmas::all_limited))]
#[cycle(cut)]
fn cut_of(
    alloc: Global,
    setting: &Setting<'_>,
    depth: usize,
    sought: &Sought<'_>,
) -> Result<bool, Memory>
    requires { IsLimited setting.now.grammar }

    ensures { IfOk result (λ yes. yes ≡ beginnings.cut_of setting.now depth sought.now.wanted.now (start_of sought.now)) }
{
    if depth == 0 {
        return Ok(false);
    }
    let rules = setting.grammar.rules().as_slice();
    any_rule(alloc, setting, depth - 1, sought, rules)
}

// Whether the setting's tokens have a partial derivation.
fn has_partial(alloc: Global, setting: &Setting<'_>) -> Result<bool, Memory>
    requires { IsLimited setting.now.grammar }

    ensures { IfOk result (λ yes. yes ≡ beginnings.has_partial setting.now) }
{
    let depth = depth_for(token_count(setting), rule_count(setting))?;
    let sought = Sought {
        wanted: &text(alloc),
        place: 0,
        list: &Access::empty(alloc),
    };
    cut_of(alloc, setting, depth, &sought)
}

// Whether the tokens have a partial derivation.
pub(crate) fn is_beginning(
    alloc: Global,
    grammar: &CheckedGrammar,
    lexicon: &Lexicon,
    tokens: &[Token],
) -> Result<bool, Memory>
    requires { length tokens.now ≤ MOST_TOKENS + 1 }

    ensures test { IfOk result (λ yes. yes ≡ beginnings.has_partial (setting_of grammar.now lexicon.now tokens.now)) }
    ensures partial { IfOk result (λ yes. IsTrue yes ↔ IsBeginning grammar.now lexicon.now tokens.now) }
{
    let readings = readings_of(alloc, lexicon, tokens)?;
    let setting = Setting {
        grammar: grammar.grammar(),
        tokens,
        readings: readings.as_slice(),
    };
    has_partial(alloc, &setting)
}
