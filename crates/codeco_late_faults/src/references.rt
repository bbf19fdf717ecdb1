// Variables that stand marked and plain in one reference.
ghost use Rattle.std.specs.Prelude.{◌≡◌, ◌++◌, map, length, List, ℕ};
ghost use Rattle.std.specs.List.{list_any, flat_map};
ghost use Rattle.codeco_checked.specs.Numbering.{has};
ghost use Rattle.codeco_checked.specs.Occurrences as occurrences;
ghost use Rattle.codeco_checked.specs.Faults as faults;
ghost use Rattle.codeco_late_faults.specs.Marks.{marked, IsSetOf};

use codeco_terms::{Element, Pattern, Rule, Term};

// How many numbers a variable may have.
const VARIABLES: usize = 256;

// Whether a variable is marked and also plain in one reference of the rule.
pub(crate) fn is_taking_rule(rule: &Rule) -> bool
    ensures { result ≡ faults.is_taking_rule rule.now }
{
    rule.body.as_slice().iter().any(|element| is_taken(element))
}

// Whether a variable is marked and also plain in the element.
#[tactic(auto, using(crate::proofs::MarkLemmas::append_nil))]
fn is_taken(element: &Element) -> bool
    ensures { result ≡ faults.is_taken element.now }
{
    match element {
        Element::Back(positive, negative) => takes_plain(positive.as_slice(), negative.as_slice()),
        Element::NoBack(patterns) => takes_plain(patterns.as_slice(), &[]),
        _ => false,
    }
}

// Whether a variable is marked and also plain in these patterns and the others.
fn takes_plain(patterns: &[Pattern], others: &[Pattern]) -> bool
    ensures { result
        ≡ list_any (has (flat_map (λ p. occurrences.category_variables p.cat) (patterns.now ++ others.now)))
        (flat_map faults.taken_variables (patterns.now ++ others.now)) }
{
    let mut plain = [false; VARIABLES];
    mark_patterns(&mut plain, patterns);
    mark_patterns(&mut plain, others);
    takes_any(&plain, patterns) || takes_any(&plain, others)
}

// Puts the plain variables of the patterns into the set.
fn mark_patterns(plain: &mut [bool], patterns: &[Pattern])
    requires { length plain.old ≡ 256 }
    ensures { plain.new
        ≡ marked plain.old (flat_map (λ p. occurrences.category_variables p.cat) patterns.now) }
{
    for pattern in patterns {
        mark_variables(plain, pattern.cat.feats.as_slice());
    }
}

// Puts the variables of the features into the set.
fn mark_variables(plain: &mut [bool], feats: &[(u16, Term)])
    requires { length plain.old ≡ 256 }
    ensures { plain.new ≡ marked plain.old (flat_map (λ f. occurrences.term_variables f.1) feats.now) }
{
    for (_, term) in feats {
        if let Term::Var(variable) = *term {
            plain[variable as usize] = true;
        }
    }
}

// Whether a marked variable of the patterns is in the set.
#[tactic(auto, using(crate::proofs::MarkLemmas::any_append))]
fn takes_any(plain: &[bool], patterns: &[Pattern]) -> bool
    requires { length plain.now ≡ 256 }
    ensures { (xs : List ℕ) → IsSetOf 256 plain.now xs → result ≡ list_any (has xs) (flat_map faults.taken_variables patterns.now) }
{
    for pattern in patterns {
        if takes_one(plain, pattern.taken.as_slice()) {
            return true;
        }
    }
    false
}

// Whether one of these marked variables is in the set.
#[tactic(auto, using(crate::proofs::MarkLemmas::set_has))]
fn takes_one(plain: &[bool], taken: &[(u16, u8)]) -> bool
    requires { length plain.now ≡ 256 }
    ensures { (xs : List ℕ) → IsSetOf 256 plain.now xs → result ≡ list_any (has xs) (map (λ t. t.1) taken.now) }
{
    for (_, variable) in taken {
        if plain[*variable as usize] {
            return true;
        }
    }
    false
}
