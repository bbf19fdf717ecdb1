// Where a node may stand after one more element.
ghost use Rattle.std.specs.Prelude.{◌≡◌, ◌+◌, ◌≤◌, [], ◌∷◌, ◌++◌, map, Some, None, option_map, unwrap_or, slice_get, length, false, IfOk, OnOk, if◌then◌else◌};
ghost use Rattle.std.specs.List.{flat_map, list_any};
ghost use Rattle.std.specs.Str.{bytes_eq};
ghost use Rattle.codeco_terms.specs.declared.values.Value.TheVariants.{Pos};
ghost use Rattle.codeco_terms.specs.declared.values.Term.TheVariants.{Var};
ghost use Rattle.scopes.specs.AccessList.{introduced};
ghost use Rattle.scopes.specs.Findings.{shown};
ghost use Rattle.scopes.specs.Resolution.{is_agreeing, closest_finding};
ghost use Rattle.derivation_trees.specs.Instances as instances;
ghost use Rattle.derivation_trees.specs.Derives as derives;
ghost use Rattle.derivation_trees.specs.Stands.{is_sub};
ghost use Rattle.chart_table.specs.Branches as branches;
ghost use Rattle.chart_table.specs.Choices as choosing;
ghost use Rattle.chart_table.specs.Features as listing;
ghost use Rattle.chart_table.specs.Steps as steps;
ghost use Rattle.derivation_trees.specs.Settings as settings;
ghost use Rattle.scopes.specs.declared.entries.Entry.TheVariants as entry;

use crate::branches::{all_know, alone, choose, copy_bound, have, meet, read_as, restrict};
use crate::choices::{Plan, choices};
use crate::scene::{Step, Trial};
use crate::states::{Bound, End, Feat, State};
use codeco_terms::{Category, Element, Ground, Pattern, Term, Vals, Value};
use derivation_trees::{Setting, term_value, tests_under, written};
use lists::List;
use scopes::{Access, Entry, Found, TestList, Tests};
use std::alloc::Global;
use wiki_base::Memory;

// Adds states at one place with one list.
pub(crate) fn push_placed(
    place: u16,
    list: &Access,
    bounds: &[Bound],
    alloc: Global,
    out: &mut List<State>,
) -> Result<(), Memory>
    ensures { OnOk result (out.new ≡ out.old ++ steps.placed place list.now bounds.now) }
{
    for bound in bounds {
        let binds = copy_bound(alloc, bound.as_slice())?;
        out.push(State {
            binds,
            place,
            list: list.share()?,
        })?;
    }
    Ok(())
}

// Adds the state with the assignment.
fn push_one(
    place: u16,
    list: Access,
    bound: &[(u8, Value)],
    alloc: Global,
    out: &mut List<State>,
) -> Result<(), Memory>
    ensures { OnOk result (out.new ≡ out.old ++ steps.placed place list (bound.now ∷ [])) }
{
    let binds = copy_bound(alloc, bound)?;
    out.push(State { binds, place, list })
}

// The assignments under which the term is known: those under which it isn't have each of its choices.
fn close_term(
    alloc: Global,
    setting: &Setting<'_>,
    plan: &Plan,
    term: Term,
    bounds: List<Bound>,
) -> Result<List<Bound>, Memory>
    ensures { IfOk result (λ out. out ≡ flat_map
        (branches.chosen_for term (choosing.choices setting.now plan.now.terms plan.now.places plan.now.own term)) bounds) }
{
    if all_know(bounds.as_slice(), term) {
        return Ok(bounds);
    }
    let values = choices(alloc, setting, plan, term)?;
    choose(alloc, term, values.as_slice(), bounds.as_slice())
}

// The assignments under which each term is known: those under which one isn't have each of its choices.
pub(crate) fn close(
    alloc: Global,
    setting: &Setting<'_>,
    plan: &Plan,
    feats: &[Feat],
    bounds: List<Bound>,
) -> Result<List<Bound>, Memory>
    ensures { IfOk result (λ out. out
        ≡ branches.closing (choosing.choices setting.now plan.now.terms plan.now.places plan.now.own) feats.now bounds) }
{
    let mut all = bounds;
    for feat in feats {
        all = close_term(alloc, setting, plan, feat.1, all)?;
    }
    Ok(all)
}

fn close_patterns(
    alloc: Global,
    setting: &Setting<'_>,
    plan: &Plan,
    patterns: &[Pattern],
    bounds: List<Bound>,
) -> Result<List<Bound>, Memory>
    ensures { IfOk result (λ out. out
        ≡ branches.closing_patterns (choosing.choices setting.now plan.now.terms plan.now.places plan.now.own) patterns.now bounds) }
{
    let mut all = bounds;
    for pattern in patterns {
        all = close(alloc, setting, plan, pattern.cat.feats.as_slice(), all)?;
    }
    Ok(all)
}

// The readings of the token at the place.
fn readings_at<'a>(setting: &Setting<'a>, place: u16) -> &'a [Ground]
    ensures { result.now ≡ steps.readings_at setting.now place }
{
    match setting.readings.get(place as usize) {
        None => &[],
        Some(readings) => readings.as_slice(),
    }
}

// The assignments under which the category is one of the readings.
fn read_all(
    alloc: Global,
    category: &Category,
    bound: &[(u8, Value)],
    readings: &[Ground],
) -> Result<List<Bound>, Memory>
    ensures { IfOk result (λ out. out ≡ steps.read_all category.now bound.now readings.now) }
{
    let mut out = List::new(alloc);
    for reading in readings {
        let more = read_as(alloc, category, bound, reading)?;
        out.append(more)?;
    }
    Ok(out)
}

// The variable with the number.
fn own_variable(number: u16) -> Result<Term, Memory>
    ensures { IfOk result (λ term. term ≡ Var number) }
{
    match u8::try_from(number) {
        Ok(variable) => Ok(Term::Var(variable)),
        Err(_) => Err(Memory),
    }
}

fn next_number(number: u16) -> Result<u16, Memory>
    ensures { IfOk result (λ next. next ≡ number + 1) }
{
    number.checked_add(1).ok_or(Memory)
}

fn completed_term(number: u16, written: Option<Term>) -> Result<Term, Memory>
    ensures { IfOk result (λ term. term ≡ steps.completed_term number written) }
{
    match written {
        None => own_variable(number),
        Some(term) => Ok(term),
    }
}

fn number_after(number: u16, written: Option<Term>) -> Result<u16, Memory>
    ensures { IfOk result (λ next. next ≡ steps.number_after number written) }
{
    match written {
        None => next_number(number),
        Some(_) => Ok(number),
    }
}

// The features of an introduction, those that it leaves out with the rule's own variables from this number on.
fn complete(
    alloc: Global,
    feats: &[Feat],
    features: &[u16],
    number: u16,
) -> Result<List<Feat>, Memory>
    ensures { IfOk result (λ out. out ≡ steps.completed feats.now features.now number) }
{
    let mut out = List::new(alloc);
    let mut next = number;
    for feature in features {
        let term = written(feats, *feature);
        out.push((*feature, completed_term(next, term)?))?;
        next = number_after(next, term)?;
    }
    Ok(out)
}

// The values of the features, of which there are at most sixteen.
fn values_of(bound: &[(u8, Value)], feats: &[Feat]) -> Vals
    requires { length feats.now ≤ 16 }
    ensures { result ≡ instances.feats_under bound.now feats.now }
{
    let mut vals = Vals::new();
    for (feature, term) in feats {
        vals.push(*feature, term_value(bound, *term));
    }
    vals
}

// The referent under the assignment.
fn referent_of(name: u16, feats: &[Feat], bound: &[(u8, Value)]) -> Result<Ground, Memory>
    ensures { IfOk result (λ referent. referent ≡ record { name = name; vals = instances.feats_under bound.now feats.now }) }
{
    if feats.len() > 16 {
        return Err(Memory);
    }
    Ok(Ground {
        name,
        vals: values_of(bound, feats),
    })
}

fn introduced_state(
    alloc: Global,
    name: u16,
    feats: &[Feat],
    strong: bool,
    state: &State,
    bound: &[(u8, Value)],
) -> Result<State, Memory>
    ensures { IfOk result (λ after. after ≡ steps.introduced_state name feats.now strong state.now bound.now) }
{
    let ground = referent_of(name, feats, bound)?;
    let list = state.list.refer(ground, state.place, strong)?;
    Ok(State {
        binds: copy_bound(alloc, bound)?,
        place: state.place,
        list,
    })
}

fn push_introduced(
    alloc: Global,
    name: u16,
    feats: &[Feat],
    strong: bool,
    state: &State,
    bounds: &[Bound],
    out: &mut List<State>,
) -> Result<(), Memory>
    ensures { OnOk result (out.new ≡ out.old ++ map (steps.introduced_state name feats.now strong state.now) bounds.now) }
{
    for bound in bounds {
        let after = introduced_state(alloc, name, feats, strong, state, bound.as_slice())?;
        out.push(after)?;
    }
    Ok(())
}

// `>` and `>>` introduce a referent at the place. The features are those of its category.
fn introduce(
    trial: &Trial<'_>,
    step: &Step<'_>,
    category: &Category,
    strong: bool,
    state: &State,
    out: &mut List<State>,
) -> Result<(), Memory>
    requires { step.now.features.now ≡ instances.features_of trial.now.setting.now.grammar category.now.name }
    ensures { OnOk result (let setting = trial.now.setting.now in let plan = trial.now.plan.now in out.new ≡ out.old
        ++ steps.introducing setting (choosing.choices setting plan.terms plan.places plan.own) step.now.number category.now strong state.now) }
{
    let Trial { alloc, setting, .. } = *trial;
    let feats = complete(alloc, category.feats.as_slice(), step.features, step.number)?;
    let one = alone(alloc, state.binds.as_slice())?;
    let bounds = close(alloc, setting, trial.plan, feats.as_slice(), one)?;
    push_introduced(
        alloc,
        category.name,
        feats.as_slice(),
        strong,
        state,
        bounds.as_slice(),
        out,
    )
}

fn marked_feats(alloc: Global, taken: &[(u16, u8)]) -> Result<List<Feat>, Memory>
    ensures { IfOk result (λ feats. feats ≡ map branches.marked taken.now) }
{
    let mut feats = List::new(alloc);
    for (feature, variable) in taken {
        feats.push((*feature, Term::Var(*variable)))?;
    }
    Ok(feats)
}

// The assignments under which the pattern takes the referent's values.
fn taking(
    alloc: Global,
    referent: &Ground,
    bound: &[(u8, Value)],
    pattern: Option<&Pattern>,
) -> Result<List<Bound>, Memory>
    ensures { IfOk result
        (λ out. out ≡ steps.taking referent.now bound.now (option_map (λ p. p.now) pattern.entry)) }
{
    match pattern {
        None => Ok(List::new(alloc)),
        Some(pattern) => {
            let feats = marked_feats(alloc, pattern.taken.as_slice())?;
            let one = alone(alloc, bound)?;
            have(alloc, referent.vals.as_slice(), feats.as_slice(), one)
        }
    }
}

fn finding_binds(
    alloc: Global,
    positive: &[Pattern],
    bound: &[(u8, Value)],
    found: Option<Found<'_>>,
) -> Result<List<Bound>, Memory>
    ensures { IfOk result
        (λ out. out ≡ steps.finding_binds positive.now bound.now (option_map shown found.entry)) }
{
    match found {
        None => Ok(List::new(alloc)),
        Some(found) => taking(
            alloc,
            found.ground,
            bound,
            positive.get(found.pattern as usize),
        ),
    }
}

// The assignments under which the reference finds a referent, where its tests are known.
fn refer_one(
    alloc: Global,
    positive: &[Pattern],
    negative: &[Pattern],
    list: &Access,
    bound: &[(u8, Value)],
) -> Result<List<Bound>, Memory>
    ensures { IfOk result (λ out. out ≡ steps.refer_one positive.now negative.now list.now bound.now) }
{
    if positive.len() > 16 {
        return Err(Memory);
    }
    let tests = Tests {
        positive: tests_under(alloc, bound, positive)?,
        negative: tests_under(alloc, bound, negative)?,
    };
    let found = list.closest(&tests);
    finding_binds(alloc, positive, bound, found)
}

fn refer(
    alloc: Global,
    positive: &[Pattern],
    negative: &[Pattern],
    list: &Access,
    bounds: &[Bound],
) -> Result<List<Bound>, Memory>
    ensures { IfOk result (λ out. out ≡ steps.refer positive.now negative.now list.now bounds.now) }
{
    let mut out = List::new(alloc);
    for bound in bounds {
        let more = refer_one(alloc, positive, negative, list, bound.as_slice())?;
        out.append(more)?;
    }
    Ok(out)
}

// The assignment alone, where no referent agrees.
fn refer_none_one(
    alloc: Global,
    patterns: &[Pattern],
    list: &Access,
    bound: &[(u8, Value)],
) -> Result<List<Bound>, Memory>
    ensures { IfOk result (λ out. out ≡ steps.refer_none_one patterns.now list.now bound.now) }
{
    let tests = Tests {
        positive: tests_under(alloc, bound, patterns)?,
        negative: TestList::new(alloc),
    };
    if list.none(&tests) {
        alone(alloc, bound)
    } else {
        Ok(List::new(alloc))
    }
}

fn refer_none(
    alloc: Global,
    patterns: &[Pattern],
    list: &Access,
    bounds: &[Bound],
) -> Result<List<Bound>, Memory>
    ensures { IfOk result (λ out. out ≡ steps.refer_none patterns.now list.now bounds.now) }
{
    let mut out = List::new(alloc);
    for bound in bounds {
        let more = refer_none_one(alloc, patterns, list, bound.as_slice())?;
        out.append(more)?;
    }
    Ok(out)
}

// The place after a token that is the terminal.
fn after_terminal(setting: &Setting<'_>, terminal: u16, place: u16) -> Option<u16>
    ensures { result ≡ (if settings.matches_terminal setting.now terminal place then Some (place + 1) else None) }
{
    if (place as usize) < setting.tokens.len()
        && matches_terminal(setting, terminal, place as usize)
    {
        Some(place + 1)
    } else {
        None
    }
}

// Whether the token at the place is the terminal with the number.
fn matches_terminal(setting: &Setting<'_>, terminal: u16, place: usize) -> bool
    ensures { result ≡ settings.matches_terminal setting.now terminal place }
{
    let Some(token) = setting.tokens.get(place) else {
        return false;
    };
    let Some(symbol) = setting
        .grammar
        .terminals()
        .as_slice()
        .get(terminal as usize)
    else {
        return false;
    };
    same_bytes(token.as_str().as_bytes(), symbol.as_bytes())
}

fn same_bytes(bytes: &[u8], other: &[u8]) -> bool
    ensures { result ≡ bytes_eq bytes.now other.now }
{
    bytes == other
}

fn push_terminal(
    alloc: Global,
    setting: &Setting<'_>,
    terminal: u16,
    state: &State,
    out: &mut List<State>,
) -> Result<(), Memory>
    ensures { OnOk result (out.new ≡ out.old
        ++ (if settings.matches_terminal setting.now terminal state.now.place
        then steps.placed (state.now.place + 1) state.now.list (state.now.binds ∷ []) else [])) }
{
    match after_terminal(setting, terminal, state.place) {
        None => Ok(()),
        Some(place) => push_one(
            place,
            state.list.share()?,
            state.binds.as_slice(),
            alloc,
            out,
        ),
    }
}

fn push_preterminal(
    alloc: Global,
    setting: &Setting<'_>,
    category: &Category,
    state: &State,
    out: &mut List<State>,
) -> Result<(), Memory>
    ensures { OnOk result (out.new ≡ out.old
        ++ steps.placed (state.now.place + 1) state.now.list (steps.read_all category.now state.now.binds (steps.readings_at setting.now state.now.place))) }
{
    let bounds = read_all(
        alloc,
        category,
        state.binds.as_slice(),
        readings_at(setting, state.place),
    )?;
    let place = next_number(state.place)?;
    push_placed(place, &state.list, bounds.as_slice(), alloc, out)
}

fn push_position(
    alloc: Global,
    variable: u8,
    state: &State,
    out: &mut List<State>,
) -> Result<(), Memory>
    ensures { OnOk result (out.new ≡ out.old
        ++ steps.placed state.now.place state.now.list (branches.restricted (Var variable) (Pos state.now.place ∷ []) (state.now.binds ∷ []))) }
{
    let one = alone(alloc, state.binds.as_slice())?;
    let mut values = List::new(alloc);
    values.push(Value::Pos(state.place))?;
    let bounds = restrict(
        alloc,
        Term::Var(variable),
        values.as_slice(),
        one.as_slice(),
    )?;
    push_placed(state.place, &state.list, bounds.as_slice(), alloc, out)
}

fn push_opened(alloc: Global, state: &State, out: &mut List<State>) -> Result<(), Memory>
    ensures { OnOk result (out.new ≡ out.old
        ++ steps.placed state.now.place (state.now.list ++ entry.Opener ∷ []) (state.now.binds ∷ [])) }
{
    let list = state.list.push_opener()?;
    push_one(state.place, list, state.binds.as_slice(), alloc, out)
}

fn push_back(
    alloc: Global,
    setting: &Setting<'_>,
    plan: &Plan,
    positive: &[Pattern],
    negative: &[Pattern],
    state: &State,
    out: &mut List<State>,
) -> Result<(), Memory>
    ensures { OnOk result (let choices = choosing.choices setting.now plan.now.terms plan.now.places plan.now.own in
        out.new ≡ out.old ++ steps.placed state.now.place state.now.list
        (steps.refer positive.now negative.now state.now.list
        (branches.closing_patterns choices negative.now (branches.closing_patterns choices positive.now (state.now.binds ∷ []))))) }
{
    let one = alone(alloc, state.binds.as_slice())?;
    let some = close_patterns(alloc, setting, plan, positive, one)?;
    let all = close_patterns(alloc, setting, plan, negative, some)?;
    let bounds = refer(alloc, positive, negative, &state.list, all.as_slice())?;
    push_placed(state.place, &state.list, bounds.as_slice(), alloc, out)
}

fn push_no_back(
    alloc: Global,
    setting: &Setting<'_>,
    plan: &Plan,
    patterns: &[Pattern],
    state: &State,
    out: &mut List<State>,
) -> Result<(), Memory>
    ensures { OnOk result (let choices = choosing.choices setting.now plan.now.terms plan.now.places plan.now.own in
        out.new ≡ out.old ++ steps.placed state.now.place state.now.list
        (steps.refer_none patterns.now state.now.list (branches.closing_patterns choices patterns.now (state.now.binds ∷ [])))) }
{
    let one = alone(alloc, state.binds.as_slice())?;
    let all = close_patterns(alloc, setting, plan, patterns, one)?;
    let bounds = refer_none(alloc, patterns, &state.list, all.as_slice())?;
    push_placed(state.place, &state.list, bounds.as_slice(), alloc, out)
}

// Adds the states after an element that is no category.
pub(crate) fn push_plain(
    trial: &Trial<'_>,
    step: &Step<'_>,
    state: &State,
    out: &mut List<State>,
) -> Result<(), Memory>
    requires { step.now.features.now ≡ listing.element_features trial.now.setting.now.grammar step.now.element.now }
    ensures { OnOk result (let setting = trial.now.setting.now in let plan = trial.now.plan.now in out.new ≡ out.old
        ++ steps.plain_steps setting (choosing.choices setting plan.terms plan.places plan.own) step.now.number step.now.element.now state.now) }
{
    let Trial { alloc, setting, .. } = *trial;
    let plan = trial.plan;
    match step.element {
        Element::Terminal(terminal) => push_terminal(alloc, setting, *terminal, state, out),
        Element::Preterminal(category) => push_preterminal(alloc, setting, category, state, out),
        Element::Sub(_) => Ok(()),
        Element::Position(variable) => push_position(alloc, *variable, state, out),
        Element::Opener => push_opened(alloc, state, out),
        Element::Forward(category) => introduce(trial, step, category, false, state, out),
        Element::Strong(category) => introduce(trial, step, category, true, state, out),
        Element::Back(positive, negative) => push_back(
            alloc,
            setting,
            plan,
            positive.as_slice(),
            negative.as_slice(),
            state,
            out,
        ),
        Element::NoBack(patterns) => {
            push_no_back(alloc, setting, plan, patterns.as_slice(), state, out)
        }
    }
}

fn push_end(
    alloc: Global,
    category: &Category,
    state: &State,
    end: &End,
    out: &mut List<State>,
) -> Result<(), Memory>
    ensures { OnOk result (out.new ≡ out.old ++ steps.sub_step category.now state.now end.now) }
{
    let mut binds = copy_bound(alloc, state.binds.as_slice())?;
    if !meet(&mut binds, end.values.as_slice(), category.feats.as_slice())? {
        return Ok(());
    }
    let list = state.list.join(&end.tail)?;
    out.push(State {
        binds,
        place: end.place,
        list,
    })
}

// Adds the states after a category, by the ends of its phrases.
pub(crate) fn push_ends(
    alloc: Global,
    category: &Category,
    state: &State,
    ends: &[End],
    out: &mut List<State>,
) -> Result<(), Memory>
    ensures { OnOk result (out.new ≡ out.old ++ steps.sub_steps category.now state.now ends.now) }
{
    for end in ends {
        push_end(alloc, category, state, end, out)?;
    }
    Ok(())
}
