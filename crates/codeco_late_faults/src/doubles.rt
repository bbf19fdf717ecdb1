// Features that stand twice in a category. They stand in order of number, so that equal ones are neighbours.
ghost use Rattle.std.specs.Prelude.{◌≡◌, ◌==◌, IsTrue, map, false};
ghost use Rattle.std.specs.List.{list_all, list_any, flat_map};
ghost use Rattle.std.specs.Option.{option_map_or};
ghost use Rattle.codeco_checked.specs.Occurrences.{mentions, whole};
ghost use Rattle.codeco_checked.specs.Faults as faults;
ghost use Rattle.codeco_checked.specs.Sound.{ascends, is_written_rule, is_written_element};
ghost use Rattle.codeco_late_faults.specs.Order as order;

use codeco_terms::{Element, Pattern, Rule, Term};

// Whether a category of the rule has a feature twice.
pub(crate) fn has_double_feature(rule: &Rule) -> bool
    requires { IsTrue (is_written_rule rule.now) }
    ensures { result ≡ faults.has_double_feature rule.now }
{
    repeats(rule.head.feats.as_slice()) || body_repeats(rule.body.as_slice())
}

fn body_repeats(body: &[Element]) -> bool
    requires { IsTrue (list_all is_written_element body.now) }
    ensures { result ≡ list_any order.is_double_category (flat_map mentions body.now) }
{
    for element in body {
        if element_repeats(element) {
            return true;
        }
    }
    false
}

fn element_repeats(element: &Element) -> bool
    requires { IsTrue (is_written_element element.now) }
    ensures { result ≡ list_any order.is_double_category (mentions element.now) }
{
    match element {
        Element::Preterminal(category)
        | Element::Sub(category)
        | Element::Forward(category)
        | Element::Strong(category) => repeats(category.feats.as_slice()),
        Element::Back(positive, negative) => {
            patterns_repeat(positive.as_slice()) || patterns_repeat(negative.as_slice())
        }
        Element::NoBack(patterns) => patterns_repeat(patterns.as_slice()),
        Element::Terminal(_) | Element::Position(_) | Element::Opener => false,
    }
}

fn patterns_repeat(patterns: &[Pattern]) -> bool
    requires { IsTrue (list_all order.is_ordered patterns.now) }
    ensures { result ≡ list_any order.is_double_category (map whole patterns.now) }
{
    for pattern in patterns {
        if pattern_repeats(pattern) {
            return true;
        }
    }
    false
}

#[tactic(auto, using(crate::proofs::PutLemmas::taken_double))]
fn pattern_repeats(pattern: &Pattern) -> bool
    requires { IsTrue (order.is_ordered pattern.now) }
    ensures { result ≡ order.is_double_category (whole pattern.now) }
{
    let feats = pattern.cat.feats.as_slice();
    let taken = pattern.taken.as_slice();
    repeats(feats) || repeats_taken(taken) || shares(feats, taken)
}

// Whether a feature stands twice.
fn repeats(feats: &[(u16, Term)]) -> bool
    requires { IsTrue (ascends (order.numbers feats.now)) }
    ensures { result ≡ faults.is_double (order.numbers feats.now) }
{
    let mut last = None;
    for (feature, _) in feats {
        if is_last(last, *feature) {
            return true;
        }
        last = Some(*feature);
    }
    false
}

// Whether a marked feature stands twice.
fn repeats_taken(taken: &[(u16, u8)]) -> bool
    requires { IsTrue (ascends (order.numbers taken.now)) }
    ensures { result ≡ faults.is_double (order.numbers taken.now) }
{
    let mut last = None;
    for (feature, _) in taken {
        if is_last(last, *feature) {
            return true;
        }
        last = Some(*feature);
    }
    false
}

// Whether this is the number that came last.
fn is_last(last: Option<u16>, number: u16) -> bool
    ensures { result ≡ option_map_or (λ x. x == number) last false }
{
    match last {
        Some(other) => other == number,
        None => false,
    }
}

// Whether a feature is written both plain and marked.
fn shares(feats: &[(u16, Term)], taken: &[(u16, u8)]) -> bool
    requires feats_ascend { IsTrue (ascends (order.numbers feats.now)) }
    requires taken_ascend { IsTrue (ascends (order.numbers taken.now)) }
    ensures { result ≡ order.shares (order.numbers feats.now) (order.numbers taken.now) }
{
    let mut place = 0;
    let mut other = 0;
    while place < feats.len() && other < taken.len() {
        let feature = feats[place].0;
        let marked = taken[other].0;
        if feature == marked {
            return true;
        }
        if feature < marked {
            place += 1;
        } else {
            other += 1;
        }
    }
    false
}
