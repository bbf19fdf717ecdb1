// Numbers by first occurrence, on short texts.
use codeco_early_faults::first_early_fault;
use codeco_numbering::number_items;
use codeco_terms::{Element, Grammar, Label, Pattern, Rule, Symbols, Term};
use codeco_text::read_items;
use std::alloc::Global;
use std::process::Abort;
use std::test::Fail;

const TEXT: &str =
    "feature k: p, q. feature num: sg. text --> a(k: X) [t]. a(k: p) --> [u] [t] $noun(num: sg) b. text --> [u].";

/// The grammar of a text, which may have faults that are told behind the numbering.
fn numbered(alloc: Global, text: &str) -> Result<Grammar, Fail> {
    let items = read_items(alloc, text.as_bytes())?;
    match first_early_fault(alloc, &items)? {
        None => Ok(number_items(alloc, &items)?),
        Some(_) => Err(Fail::from("a fault before the numbering")),
    }
}

fn assert_names(rt: &impl Abort, symbols: &Symbols, names: &[&[u8]]) {
    assert!(rt; symbols.len() == names.len());
    for (symbol, name) in symbols.as_slice().iter().zip(names) {
        assert!(rt; symbol.as_bytes() == *name);
    }
}

fn only_rule(grammar: &Grammar) -> Result<&Rule, Fail> {
    match grammar.rules().as_slice() {
        [rule] => Ok(rule),
        _ => Err(Fail::from("the text has no single rule")),
    }
}

#[test]
fn terminals_are_numbered_by_first_occurrence(rt: HostRuntime) -> Result<(), Fail> {
    let grammar = numbered(rt.alloc(), TEXT)?;
    assert_names(&rt, grammar.terminals(), &[b"t", b"u"]);
    Ok(())
}

#[test]
fn preterminals_are_no_other_categories(rt: HostRuntime) -> Result<(), Fail> {
    let grammar = numbered(rt.alloc(), TEXT)?;
    assert_names(
        &rt,
        grammar.categories(),
        &[
            b"name", b"noun", b"of", b"verb", b"adj", b"text", b"a", b"b",
        ],
    );
    Ok(())
}

#[test]
fn labels_have_their_names(rt: HostRuntime) -> Result<(), Fail> {
    for (text, label) in [
        ("{statement} text --> [a].", Some(Label::Statement)),
        ("{what} text --> [a].", Some(Label::What)),
        ("{whichobj} text --> [a].", Some(Label::Whichobj)),
        ("{mark} text --> [a].", Some(Label::Mark)),
        ("text --> [a].", None),
    ] {
        let grammar = numbered(rt.alloc(), text)?;
        assert!(rt; only_rule(&grammar)?.label == label, "{text}");
    }
    Ok(())
}

// The numbers of two variables whose positions follow a reference.
fn two_positions(rule: &Rule) -> Option<(u8, u8)> {
    match rule.body.as_slice() {
        [
            Element::Back(_, _),
            Element::Position(one),
            Element::Position(other),
        ] => Some((*one, *other)),
        _ => None,
    }
}

#[test]
fn variables_come_in_order_of_their_features(rt: HostRuntime) -> Result<(), Fail> {
    let text = "feature k: p. feature m: p. text --> < +a(m: X, k: ?Y) #X #Y.";
    let grammar = numbered(rt.alloc(), text)?;
    assert!(rt; two_positions(only_rule(&grammar)?) == Some((1, 0)));
    Ok(())
}

fn reference(rule: &Rule) -> Option<&Pattern> {
    match rule.body.as_slice() {
        [Element::Back(positives, _), Element::Position(1)] => positives.as_slice().first(),
        _ => None,
    }
}

fn assert_marked(rt: &impl Abort, pattern: &Pattern) {
    assert!(rt; pattern.cat.name == 6);
    assert!(rt; pattern.cat.feats.as_slice() == [(5, Term::Var(1))].as_slice());
    assert!(rt; pattern.taken.as_slice() == [(4, 0)].as_slice());
}

#[test]
fn marked_variables_stand_apart(rt: HostRuntime) -> Result<(), Fail> {
    let text = "feature k: p. feature m: p. text --> < +a(m: X, k: ?Y) #X.";
    let grammar = numbered(rt.alloc(), text)?;
    let pattern = reference(only_rule(&grammar)?).ok_or(
        "the body is a reference and the position of X",
    )?;
    assert_marked(&rt, pattern);
    Ok(())
}
