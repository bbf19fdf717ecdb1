// Short texts with the fault that is told first, by hand from the rules of the notation.
use codeco_checked::GrammarFault;
use codeco_early_faults::first_early_fault;
use codeco_text::read_items;
use std::test::Fail;

/// The first early fault of a text that is a sentence of the notation.
fn early_fault(rt: &HostRuntime, text: &str) -> Result<Option<GrammarFault>, Fail> {
    match read_items(rt.alloc(), text.as_bytes()) {
        Err(_) => Err(Fail::from("the text is no sentence, or memory ran out")),
        Ok(items) => match first_early_fault(rt.alloc(), &items) {
            Err(_) => Err(Fail::from("memory ran out")),
            Ok(found) => Ok(found),
        },
    }
}

#[test]
fn each_early_fault_is_told_at_its_first_place(rt: HostRuntime) -> Result<(), Fail> {
    for (text, fault) in [
        ("text --> [a].", None),
        ("feature k: p. text(k: p) --> [a].", None),
        (
            "text --> [a]. text(k: p) --> [a].",
            Some(GrammarFault::Undeclared(2)),
        ),
        ("text --> $noun(num: sg). feature num: sg, pl.", None),
        (
            "feature k: p. feature k: q. text --> [a].",
            Some(GrammarFault::BadValue(0)),
        ),
        (
            "feature k: p, q, p. text --> [a].",
            Some(GrammarFault::BadValue(0)),
        ),
        (
            "feature k: p, p. text(h: p) --> [a].",
            Some(GrammarFault::Undeclared(1)),
        ),
    ] {
        let found = early_fault(&rt, text)?;
        assert!(rt; found == fault, "{text}");
    }
    Ok(())
}

#[test]
fn sixteen_are_the_most_of_a_rule(rt: HostRuntime) -> Result<(), Fail> {
    for (text, fault) in [
        (
            "text --> // // // // // // // // // // // // // // // [a].",
            None,
        ),
        (
            "text --> [a]. text --> // // // // // // // // // // // // // // // // [a].",
            Some(GrammarFault::TooLarge(2)),
        ),
        (
            "text --> #A #B #C #D #E #F #G #H #I #J #K #L #M #N #O #P.",
            None,
        ),
        (
            "text --> < +a +a +a +a +a +a +a +a -b -b -b -b -b -b -b -b [a].",
            None,
        ),
        (
            "text --> < +a +a +a +a +a +a +a +a -b -b -b -b -b -b -b -b /< +a [a].",
            Some(GrammarFault::TooLarge(1)),
        ),
        (
            "text --> a(a: A, b: B, c: C, d: D, e: E, f: F, g: G, h: H) b(a: I, b: J, c: K, d: L, e: M, f: N, g: O, h: P, i: Q).",
            Some(GrammarFault::TooLarge(1)),
        ),
    ] {
        let found = early_fault(&rt, text)?;
        assert!(rt; found == fault, "{text}");
    }
    Ok(())
}

#[test]
fn sixteen_features_are_the_most_of_a_category(rt: HostRuntime) -> Result<(), Fail> {
    for (text, fault) in [
        (
            "text(a: X, b: X, c: X, d: X, e: X, f: X, g: X, h: X) --> text(i: X, j: X, k: X, l: X, m: X, n: X, o: X, p: X, a: X).",
            Some(GrammarFault::Undeclared(1)),
        ),
        (
            "text(a: X, b: X, c: X, d: X, e: X, f: X, g: X, h: X) --> text(i: X, j: X, k: X, l: X, m: X, n: X, o: X, p: X, q: X).",
            Some(GrammarFault::TooLarge(1)),
        ),
        (
            "text --> noun(a: X, b: X, c: X, d: X, e: X, f: X, g: X, h: X) $noun(i: X, j: X, k: X, l: X, m: X, n: X, o: X, p: X, q: X).",
            Some(GrammarFault::Undeclared(1)),
        ),
    ] {
        let found = early_fault(&rt, text)?;
        assert!(rt; found == fault, "{text}");
    }
    Ok(())
}

#[test]
fn sixty_four_bytes_are_the_most_of_a_terminal(rt: HostRuntime) -> Result<(), Fail> {
    for (text, fault) in [
        (
            "text --> [aaaaaaaaaaaaaaaaaaaaaaaaaaaaaaaaaaaaaaaaaaaaaaaaaaaaaaaaaaaaaaaa].",
            None,
        ),
        (
            "text --> [a] [aaaaaaaaaaaaaaaaaaaaaaaaaaaaaaaaaaaaaaaaaaaaaaaaaaaaaaaaaaaaaaaaa].",
            Some(GrammarFault::TooLarge(1)),
        ),
    ] {
        let found = early_fault(&rt, text)?;
        assert!(rt; found == fault, "{text}");
    }
    Ok(())
}
