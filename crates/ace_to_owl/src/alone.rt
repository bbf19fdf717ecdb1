// The axiom of a condition that stands alone.
ghost use Rattle.std.specs.Prelude.{◌≡◌, ◌==◌, ◌||◌, not, IfOk, []};
ghost use Rattle.std.specs.List.{filter, list_all};
ghost use Rattle.std.specs.Option.{option_or};
ghost use Rattle.logic_terms.specs.Shown.{concept_of, claim_of, structure_of, condition_of, conditions_of};
ghost use Rattle.logic_terms.specs.Structure.{Implication, referents_in};
ghost use Rattle.ace_to_owl.specs.Parts.{straight, inverse};
ghost use Rattle.ace_to_owl.specs.Terms.{referents_among, terms_in};
ghost use Rattle.ace_to_owl.specs.Answers.{option_shown, Agrees};
ghost use Rattle.ace_to_owl.specs.Rolling.{roll};
ghost use Rattle.ace_to_owl.specs.Mapping.{class_asked, subclass_claim, member_claim, only_condition, only_fact, denied, denied_claim, is_pair, pair_claim, role_claim, subrole_claim, two_conditions, transitive_claim, referents_related, chain_claim, lead_on, is_triple, plain_claim, alone, other_claim, leading_claim, nameless_claim, named_claim, used_claim, compound_claim, claim_alone};

use crate::fault::Fault;
use crate::part::is_among;
use crate::rolling::{class_at_root, part_of, rolled};
use crate::terms::{condition_terms, first_name, referents_among, structure_terms};
use crate::tree::class_of_tree;
use lists::List;
use logic_terms::{Axiom, Cause, Class, Cond, Drs, Role, Thing};
use std::alloc::Global;
use wiki_base::{Memory, WordId};

/// The axiom of a condition that stands alone: the first case that fits.
pub fn claim_alone(alloc: Global, condition: &Cond) -> Result<Axiom, Fault>
    ensures { Agrees claim_of result (claim_alone (condition_of condition.now)) }
{
    match plain_claim(condition) {
        Some(axiom) => Ok(axiom),
        None => compound_claim(alloc, condition),
    }
}

fn straight(word: WordId) -> Role
    ensures { result ≡ straight word }
{
    Role {
        id: word,
        inverted: false,
    }
}

fn inverse(word: WordId) -> Role
    ensures { result ≡ inverse word }
{
    Role {
        id: word,
        inverted: true,
    }
}

// A condition that is an axiom as it stands.
fn plain_claim(condition: &Cond) -> Option<Axiom>
    ensures { option_shown claim_of result ≡ plain_claim (condition_of condition.now) }
{
    match condition {
        Cond::Class(noun, Thing::Name(name)) => Some(Axiom::Member(Class::Named(*noun), *name)),
        Cond::Rel(word, Thing::Name(from), Thing::Name(to)) => {
            Some(Axiom::Related(straight(*word), *from, *to))
        }
        Cond::Same(Thing::Name(one), Thing::Name(other)) => Some(Axiom::Equal(*one, *other)),
        Cond::Not(inner) => denied(inner),
        Cond::Implies(left, right) => role_axiom(left, right),
        _ => None,
    }
}

fn denied(inner: &Drs) -> Option<Axiom>
    ensures { option_shown claim_of result ≡ denied (structure_of inner.now) }
{
    match only_fact(inner) {
        Some(fact) => denied_claim(fact),
        None => None,
    }
}

// `not` of one relation or one equation of names.
fn denied_claim(fact: &Cond) -> Option<Axiom>
    ensures { option_shown claim_of result ≡ denied_claim (condition_of fact.now) }
{
    match fact {
        Cond::Rel(word, Thing::Name(from), Thing::Name(to)) => {
            Some(Axiom::NotRelated(straight(*word), *from, *to))
        }
        Cond::Same(Thing::Name(one), Thing::Name(other)) => Some(Axiom::Differ(*one, *other)),
        _ => None,
    }
}

// The condition of a structure that has just one.
fn only_condition(drs: &Drs) -> Option<&Cond>
    ensures { option_shown (λ c. condition_of c.now) result ≡ only_condition (structure_of drs.now) }
{
    let conditions = drs.conditions();
    if conditions.len() == 1 {
        Some(conditions.get(0))
    } else {
        None
    }
}

// The same, where the structure introduces nothing.
fn only_fact(drs: &Drs) -> Option<&Cond>
    ensures { option_shown (λ c. condition_of c.now) result ≡ only_fact (structure_of drs.now) }
{
    if drs.referents().as_slice().is_empty() {
        only_condition(drs)
    } else {
        None
    }
}

// An implication between relations of referents.
fn role_axiom(left: &Drs, right: &Drs) -> Option<Axiom>
    ensures { option_shown claim_of result ≡ option_or (subrole_claim (structure_of left.now) (structure_of right.now))
        (transitive_claim (structure_of left.now) (structure_of right.now)) }
{
    match subrole_claim(left, right) {
        Some(axiom) => Some(axiom),
        None => transitive_claim(left, right),
    }
}

fn subrole_claim(left: &Drs, right: &Drs) -> Option<Axiom>
    ensures { option_shown claim_of result ≡ subrole_claim (structure_of left.now) (structure_of right.now) }
{
    let below = only_condition(left)?;
    let above = only_fact(right)?;
    role_claim(left.referents().as_slice(), below, above)
}

// Two referents, one relation of them on the left and one on the right.
fn role_claim(referents: &[u16], below: &Cond, above: &Cond) -> Option<Axiom>
    ensures { option_shown claim_of result ≡ role_claim referents.now (condition_of below.now) (condition_of above.now) }
{
    match (below, above) {
        (
            Cond::Rel(below, Thing::Ref(first), Thing::Ref(second)),
            Cond::Rel(above, Thing::Ref(third), Thing::Ref(fourth)),
        ) => pair_claim(referents, *below, *first, *second, *above, *third, *fourth),
        _ => None,
    }
}

fn pair_claim(
    referents: &[u16],
    below: WordId,
    first: u16,
    second: u16,
    above: WordId,
    third: u16,
    fourth: u16,
) -> Option<Axiom>
    ensures { option_shown claim_of result ≡ pair_claim referents.now below first second above third fourth }
{
    if !is_pair(referents, first, second) {
        None
    } else if third == first && fourth == second {
        Some(Axiom::SubRole(straight(below), straight(above)))
    } else if third == second && fourth == first {
        Some(Axiom::SubRole(straight(below), inverse(above)))
    } else {
        None
    }
}

fn is_pair(referents: &[u16], first: u16, second: u16) -> bool
    ensures { result ≡ is_pair referents.now first second }
{
    match referents {
        [one, other] => first == *one && second == *other || first == *other && second == *one,
        _ => false,
    }
}

// The two conditions of a structure that has just these.
fn two_conditions(drs: &Drs) -> Option<(&Cond, &Cond)>
    ensures { option_shown (λ p. (condition_of p.0.now, condition_of p.1.now)) result ≡ two_conditions (structure_of drs.now) }
{
    let conditions = drs.conditions();
    if conditions.len() == 2 {
        Some((conditions.get(0), conditions.get(1)))
    } else {
        None
    }
}

fn transitive_claim(left: &Drs, right: &Drs) -> Option<Axiom>
    ensures { option_shown claim_of result ≡ transitive_claim (structure_of left.now) (structure_of right.now) }
{
    let (first, second) = two_conditions(left)?;
    let last = only_fact(right)?;
    chain_claim(
        left.referents().as_slice(),
        referents_related(first),
        referents_related(second),
        referents_related(last),
    )
}

// The word of a relation between two referents, and these.
fn referents_related(condition: &Cond) -> Option<(WordId, u16, u16)>
    ensures { result ≡ referents_related (condition_of condition.now) }
{
    match condition {
        Cond::Rel(word, Thing::Ref(from), Thing::Ref(to)) => Some((*word, *from, *to)),
        _ => None,
    }
}

// Two relations on the left, in either order, and one on the right.
fn chain_claim(
    referents: &[u16],
    first: Option<(WordId, u16, u16)>,
    second: Option<(WordId, u16, u16)>,
    last: Option<(WordId, u16, u16)>,
) -> Option<Axiom>
    ensures { option_shown claim_of result ≡ chain_claim referents.now first second last }
{
    let first = first?;
    let second = second?;
    let last = last?;
    if lead_on(referents, first, second, last) || lead_on(referents, second, first, last) {
        Some(Axiom::Transitive(first.0))
    } else {
        None
    }
}

// Whether relations by one word lead from the first referent to the second, from that to the third, and from the first to
// the third.
fn lead_on(
    referents: &[u16],
    first: (WordId, u16, u16),
    second: (WordId, u16, u16),
    last: (WordId, u16, u16),
) -> bool
    ensures { result ≡ lead_on referents.now first second last }
{
    first.0.0 == second.0.0
        && first.0.0 == last.0.0
        && first.2 == second.1
        && first.1 == last.1
        && second.2 == last.2
        && is_triple(referents, first.1, first.2, second.2)
}

fn is_triple(referents: &[u16], first: u16, second: u16, third: u16) -> bool
    ensures { result ≡ is_triple referents.now first second third }
{
    is_among(referents, first)
        && is_among(referents, second)
        && is_among(referents, third)
        && are_only(referents, first, second, third)
        && first != second
        && second != third
        && first != third
}

fn are_only(referents: &[u16], first: u16, second: u16, third: u16) -> bool
    ensures { result ≡ list_all (λ q. (first == q) || (second == q) || (third == q)) referents.now }
{
    referents.iter().all(|other| first == *other || second == *other || third == *other)
}

fn compound_claim(alloc: Global, condition: &Cond) -> Result<Axiom, Fault>
    ensures { Agrees claim_of result (compound_claim (condition_of condition.now)) }
{
    match condition {
        Cond::Implies(left, right) => implication_claim(alloc, left, right, condition),
        _ => named_claim(alloc, condition),
    }
}

fn implication_claim(alloc: Global, left: &Drs, right: &Drs, whole: &Cond) -> Result<Axiom, Fault>
    requires { condition_of whole.now ≡ Implication (structure_of left.now) (structure_of right.now) }
    ensures { Agrees claim_of result (used_claim (structure_of left.now) (structure_of right.now)
        (referents_among (referents_in (structure_of left.now)) (terms_in [] (structure_of right.now)))) }
{
    let terms = structure_terms(alloc, right)?;
    let used = referents_among(alloc, left.referents().as_slice(), terms.as_slice())?;
    used_claim(alloc, left, right, used.as_slice(), whole)
}

// An implication by those of its left referents that its right side uses.
fn used_claim(
    alloc: Global,
    left: &Drs,
    right: &Drs,
    used: &[u16],
    whole: &Cond,
) -> Result<Axiom, Fault>
    requires { condition_of whole.now ≡ Implication (structure_of left.now) (structure_of right.now) }
    ensures { Agrees claim_of result (used_claim (structure_of left.now) (structure_of right.now) used.now) }
{
    let Some((first, rest)) = used.split_first() else {
        return named_claim(alloc, whole);
    };
    if all_equal(*first, rest) {
        subclass_claim(alloc, *first, left, right)
    } else {
        Err(Fault::Outside(Cause::Shared))
    }
}

fn all_equal(first: u16, rest: &[u16]) -> bool
    ensures { result ≡ list_all (λ q. q == first) rest.now }
{
    rest.iter().all(|referent| *referent == first)
}

fn named_claim(alloc: Global, condition: &Cond) -> Result<Axiom, Fault>
    ensures { Agrees claim_of result (named_claim (condition_of condition.now)) }
{
    let terms = condition_terms(alloc, condition)?;
    match first_name(terms.as_slice()) {
        Some(name) => member_claim(alloc, name, condition),
        None => nameless_claim(alloc, condition),
    }
}

fn member_claim(alloc: Global, name: WordId, condition: &Cond) -> Result<Axiom, Fault>
    ensures { Agrees claim_of result (member_claim name (alone (condition_of condition.now))) }
{
    let class = roll_alone(alloc, Some(Thing::Name(name)), condition)?;
    Ok(Axiom::Member(class, name))
}

fn nameless_claim(alloc: Global, condition: &Cond) -> Result<Axiom, Fault>
    ensures { Agrees claim_of result (nameless_claim (condition_of condition.now)) }
{
    match condition {
        Cond::Implies(left, right) => leading_claim(
            alloc,
            left,
            right,
            left.referents().as_slice(),
            condition,
        ),
        _ => other_claim(alloc, condition),
    }
}

fn leading_claim(
    alloc: Global,
    left: &Drs,
    right: &Drs,
    referents: &[u16],
    whole: &Cond,
) -> Result<Axiom, Fault>
    requires { condition_of whole.now ≡ Implication (structure_of left.now) (structure_of right.now) }
    ensures { Agrees claim_of result (leading_claim (structure_of left.now) (structure_of right.now) referents.now) }
{
    match referents.first() {
        Some(first) => subclass_claim(alloc, *first, left, right),
        None => other_claim(alloc, whole),
    }
}

// Each element for which the left side is true is one for which the right side is.
fn subclass_claim(alloc: Global, referent: u16, left: &Drs, right: &Drs) -> Result<Axiom, Fault>
    ensures { Agrees claim_of result (subclass_claim referent (structure_of left.now) (structure_of right.now)) }
{
    let below = class_asked(alloc, left, referent)?;
    let above = class_at_root(alloc, Some(Thing::Ref(referent)), right)?;
    Ok(Axiom::SubClass(below, above))
}

fn other_claim(alloc: Global, condition: &Cond) -> Result<Axiom, Fault>
    ensures { Agrees claim_of result (other_claim (condition_of condition.now)) }
{
    let class = roll_alone(alloc, None, condition)?;
    Ok(Axiom::SubClass(Class::Thing, class))
}

// A structure of one condition.
fn roll_alone(alloc: Global, root: Option<Thing>, condition: &Cond) -> Result<Class, Fault>
    ensures { Agrees concept_of result (roll root (alone (condition_of condition.now))) }
{
    let part = part_of(alloc, root, &[], condition)?;
    let mut parts = List::new(alloc);
    parts.push(part)?;
    class_of_tree(alloc, &[], parts.as_slice())
}

/// The class at one of a structure's referents.
pub fn class_asked(alloc: Global, drs: &Drs, referent: u16) -> Result<Class, Fault>
    ensures { Agrees concept_of result (class_asked (structure_of drs.now) referent) }
{
    let others = others(alloc, drs.referents().as_slice(), referent)?;
    rolled(
        alloc,
        Some(Thing::Ref(referent)),
        others.as_slice(),
        drs.conditions(),
    )
}

fn others(alloc: Global, referents: &[u16], referent: u16) -> Result<List<u16>, Memory>
    ensures { IfOk result (λ others. others ≡ filter (λ q. not (q == referent)) referents.now) }
{
    let mut others = List::new(alloc);
    for other in referents {
        if *other != referent {
            others.push(*other)?;
        }
    }
    Ok(others)
}
