// What the elements of a rule do, but for the categories.
ghost use Rattle.std.specs.Prelude.{◌≡◌, ◌≤◌, List, [], ◌∷◌, ◌++◌, length, if◌then◌else◌, false, IfOk, option_map, Some, None};
ghost use Rattle.std.specs.List.{list_all, list_any};
ghost use Rattle.codeco_terms.specs.declared.values.Value.TheVariants.{Pos};
ghost use Rattle.codeco_terms.specs.Values.{same_value};
ghost use Rattle.scopes.specs.declared.entries.Entry.TheVariants as entry;
ghost use Rattle.scopes.specs.Resolution.{has_value, closest_finding, is_agreeing};
ghost use Rattle.derivation_trees.specs.Instances.{features_of, looked_up, tests_under, value_under};
ghost use Rattle.derivation_trees.specs.Derives as derives;
ghost use Rattle.derivation_trees.specs.Derives.{is_found, filled, filled_value, own_after, own_rest};
ghost use Rattle.derivation_trees.specs.Stands.{IsStand, IsWithin, is_sub, stand_of};

use crate::features::features_of;
use crate::instances::{term_value, tests_under, under, value_under};
use crate::setting::Setting;
use codeco_terms::{Category, Element, Ground, Pattern, Patterns, Term, Vals, Value};
use scopes::{Access, TestList, Tests, has_value};
use std::alloc::Global;
use wiki_base::Memory;

/// Where a node stands after some of its elements: the place and the list there, and the found positions and the own
/// variables that are still to come.
#[derive(Drop)]
pub struct Progress<'a> {
    pub place: u16,
    pub list: Access,
    pub found: &'a [u16],
    pub own: &'a [(u8, Value)],
}

/// What an element that is no category does.
pub fn pass<'a>(
    alloc: Global,
    setting: &Setting<'_>,
    values: &[(u8, Value)],
    element: &Element,
    stand: Progress<'a>,
) -> Result<Option<Progress<'a>>, Memory>
    requires within { IsWithin setting.now.grammar element.now }
    requires plain { is_sub element.now ≡ false }

    ensures { IfOk result
        (IsStand (λ children. derives.pass setting.now values.now element.now (stand_of children stand.entry))) }
{
    match element {
        Element::Terminal(terminal) => {
            let place = setting.after_terminal(*terminal, stand.place);
            Ok(move_on(stand, place))
        }
        Element::Preterminal(category) => {
            let asked = under(alloc, values, category)?;
            let place = setting.after_preterminal(&asked, stand.place);
            Ok(move_on(stand, place))
        }
        Element::Position(variable) => Ok(stay_at(values, *variable, stand)),
        Element::Opener => {
            let opened = open(stand)?;
            Ok(Some(opened))
        }
        Element::Forward(category) => {
            let introduced = introduce(alloc, setting, values, category, false, stand)?;
            Ok(Some(introduced))
        }
        Element::Strong(category) => {
            let introduced = introduce(alloc, setting, values, category, true, stand)?;
            Ok(Some(introduced))
        }
        Element::Back(positive, negative) => refer_back(alloc, values, positive, negative, stand),
        Element::NoBack(patterns) => refer_to_none(alloc, values, patterns, stand),
        Element::Sub(_) => unreachable!(),
    }
}

// Moves on to the place after a token that matched.
fn move_on(stand: Progress<'_>, place: Option<u16>) -> Option<Progress<'_>>
    ensures { IsStand
        (λ children. option_map (λ p. derives.moved (stand_of children stand.entry) p stand.entry.list) place) result }
{
    match place {
        None => None,
        Some(place) => Some(Progress {
            place,
            list: stand.list,
            found: stand.found,
            own: stand.own,
        }),
    }
}

// `#X` holds where X is the place.
fn stay_at<'a>(values: &[(u8, Value)], variable: u8, stand: Progress<'a>) -> Option<Progress<'a>>
    ensures { IsStand
        (λ children. if same_value (value_under values.now variable) (Pos stand.entry.place) then Some (stand_of children stand.entry) else None) result }
{
    if value_under(values, variable).is(Value::Pos(stand.place)) {
        Some(stand)
    } else {
        None
    }
}

// `//` opens a scope.
fn open(stand: Progress<'_>) -> Result<Progress<'_>, Memory>
    ensures { IfOk result (λ opened. (children : List derives.Phrase) → stand_of children opened
        ≡ derives.moved (stand_of children stand.entry) stand.entry.place (stand.entry.list ++ entry.Opener ∷ [])) }
{
    let list = stand.list.push_opener()?;
    Ok(Progress {
        place: stand.place,
        list,
        found: stand.found,
        own: stand.own,
    })
}

// `>` and `>>` introduce a referent at the place.
fn introduce<'a>(
    alloc: Global,
    setting: &Setting<'_>,
    values: &[(u8, Value)],
    category: &Category,
    strong: bool,
    stand: Progress<'a>,
) -> Result<Progress<'a>, Memory>
    requires { length (features_of setting.now.grammar category.now.name) ≤ 16 }
    ensures { IfOk result (λ after. (children : List derives.Phrase) → stand_of children after
        ≡ derives.pass_introduction setting.now.grammar values.now category.now strong (stand_of children stand.entry)) }
{
    let features = features_of(alloc, setting.grammar, category.name)?;
    let (vals, own) = fill_all(
        values,
        category.feats.as_slice(),
        features.as_slice(),
        stand.own,
    );
    let referent = Ground {
        name: category.name,
        vals,
    };
    let list = stand.list.refer(referent, stand.place, strong)?;
    Ok(Progress {
        place: stand.place,
        list,
        found: stand.found,
        own,
    })
}

// `<` finds the closest referent, at the found position that is to come.
fn refer_back<'a>(
    alloc: Global,
    values: &[(u8, Value)],
    positive: &Patterns,
    negative: &Patterns,
    stand: Progress<'a>,
) -> Result<Option<Progress<'a>>, Memory>
    requires { length positive.now ≤ 16 }
    ensures { IfOk result (IsStand (λ children. derives.pass_finding values.now positive.now
        (closest_finding (derives.reference_tests values.now positive.now negative.now) stand.entry.list)
        stand.entry.found.now (stand_of children stand.entry))) }
{
    let tests = Tests {
        positive: tests_under(alloc, values, positive.as_slice())?,
        negative: tests_under(alloc, values, negative.as_slice())?,
    };
    match stand.found.split_first() {
        None => Ok(None),
        Some((pos, rest)) => {
            if finds(&stand.list, &tests, values, positive, *pos) {
                Ok(Some(Progress {
                    place: stand.place,
                    list: stand.list,
                    found: rest,
                    own: stand.own,
                }))
            } else {
                Ok(None)
            }
        }
    }
}

// Whether the closest referent is at the position, and has the values that the first agreeing pattern takes.
fn finds(
    list: &Access,
    tests: &Tests,
    values: &[(u8, Value)],
    positive: &Patterns,
    pos: u16,
) -> bool
    requires { length tests.now.positive ≤ 16 }
    ensures { result ≡ is_found values.now positive.now pos (closest_finding tests.now list.now) }
{
    match list.closest(tests) {
        None => false,
        Some(found) => {
            found.pos == pos
                && takes(
                    values,
                    found.ground,
                    positive.as_slice().get(found.pattern as usize),
                )
        }
    }
}

// `/<` holds where no referent agrees.
fn refer_to_none<'a>(
    alloc: Global,
    values: &[(u8, Value)],
    patterns: &Patterns,
    stand: Progress<'a>,
) -> Result<Option<Progress<'a>>, Memory>
    ensures { IfOk result (IsStand (λ children.
        if list_any (is_agreeing (tests_under values.now patterns.now)) stand.entry.list then None else Some (stand_of children stand.entry))) }
{
    let tests = Tests {
        positive: tests_under(alloc, values, patterns.as_slice())?,
        negative: TestList::new(alloc),
    };
    if stand.list.none(&tests) {
        Ok(Some(stand))
    } else {
        Ok(None)
    }
}

// What a feature of an introduced referent is: the value of the term that is written, else that of an own variable. With
// it come the own variables that are left.
fn fill<'a>(
    values: &[(u8, Value)],
    feats: &[(u16, Term)],
    feature: u16,
    own: &'a [(u8, Value)],
) -> (Value, &'a [(u8, Value)])
    ensures value { result.0 ≡ filled_value values.now own.now (looked_up feats.now feature) }
    ensures rest { result.1.now ≡ own_after own.now (looked_up feats.now feature) }
{
    match written(feats, feature) {
        Some(term) => (term_value(values, term), own),
        None => match own.split_first() {
            Some((first, rest)) => (first.1, rest),
            None => (Value::Atom(0), own),
        },
    }
}

/// The term that is written for the feature.
pub fn written(feats: &[(u16, Term)], feature: u16) -> Option<Term>
    ensures { result ≡ looked_up feats.now feature }
{
    for (other, term) in feats {
        if *other == feature {
            return Some(*term);
        }
    }
    None
}

// The values of features, where a category writes some and leaves the others to own variables; and the own variables
// that are left.
#[tactic(auto, using(crate::proofs::OwnLemmas::own_rest_more))]
fn fill_all<'a>(
    values: &[(u8, Value)],
    feats: &[(u16, Term)],
    features: &[u16],
    own: &'a [(u8, Value)],
) -> (Vals, &'a [(u8, Value)])
    requires { length features.now ≤ 16 }

    ensures values { result.0 ≡ filled values.now feats.now features.now own.now }
    ensures rest { result.1.now ≡ own_rest feats.now features.now own.now }
{
    let mut vals = Vals::new();
    let mut left = own;
    for feature in features {
        let (value, rest) = fill(values, feats, *feature, left);
        vals.push(*feature, value);
        left = rest;
    }
    (vals, left)
}

/// Whether the marked variables of the pattern have the values of the referent.
pub fn takes(values: &[(u8, Value)], referent: &Ground, pattern: Option<&Pattern>) -> bool
    ensures { result ≡ derives.takes values.now referent.now (option_map (λ p. p.now) pattern.entry) }
{
    match pattern {
        None => false,
        Some(pattern) => takes_all(values, referent.vals.as_slice(), pattern.taken.as_slice()),
    }
}

fn takes_all(values: &[(u8, Value)], vals: &[(u16, Value)], taken: &[(u16, u8)]) -> bool
    ensures { result ≡ list_all (λ t. has_value vals.now (t.0, value_under values.now t.1)) taken.now }
{
    taken
        .iter()
        .all(|t| has_value(vals, (t.0, value_under(values, t.1))))
}
