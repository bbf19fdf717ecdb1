// The answers of the table at the budgets told there, and what models of finished branches have.
use crate::asking::asked;
use crate::pictures::PICTURES;
use crate::questions::QUESTIONS;
use logic_terms::{Axiom, Axioms, Class, Names};
use owl_eval::{CheckedModel, Interp};
use reasoner::{Verdict, verdict};
use reasoner_examples::{are_fit, has_small_model, names_of, read};
use std::alloc::Global;
use std::test::Fail;
use wiki_base::WordId;

const ENOUGH: u64 = 1000;

// From this budget on one model is looked for that has all names outside.
const ALL_AT_ONCE: u64 = 100_000;

// A checked model of the axioms, that of their search unless the bare interpretation is one.
fn model_of(alloc: Global, names: &Names, text: &str) -> Result<CheckedModel, Fail> {
    let bare = Interp::new(alloc, 1, Vec::new(alloc), Vec::new(alloc), Vec::new(alloc))?;
    let kept = match CheckedModel::new(bare, Axioms::new(alloc)) {
        Ok(kept) => kept,
        Err(_) => return Err("a model of no axioms".into()),
    };
    let axioms = read(alloc, text)?;
    if !are_fit(names, &axioms) {
        return Err("fit axioms".into());
    }
    match verdict(alloc, axioms, names, &kept, ENOUGH)? {
        Verdict::Consistent(model) => Ok(model),
        _ => Err("axioms with a model".into()),
    }
}

// Whether the names are those of these digits that are not among the others, in order.
fn are(names: &Names, digits: &str, others: &str) -> bool {
    let mut place = 0;
    for digit in digits.as_bytes() {
        if !others.as_bytes().contains(digit) {
            if place >= names.len() || names.get(place).0 != u32::from(*digit) {
                return false;
            }
            place += 1;
        }
    }
    place == names.len()
}

#[test]
fn each_question_has_its_answers(rt: HostRuntime) -> Result<(), Fail> {
    let alloc = rt.alloc();
    for (count, axioms, class, _, most, yes, unknown) in QUESTIONS.iter() {
        let names = names_of(alloc, *count)?;
        let kept = model_of(alloc, &names, axioms)?;
        let text = format!(in alloc; "{class}1:")?;
        let question = read(alloc, text.as_str())?;
        let told = asked(alloc, &question, &kept, &names, *most)?;
        assert!(rt; are(&told.yes, yes, ""), "{axioms} {class}");
        assert!(rt; told.unknown.is_empty(), "{axioms} {class}");
        let at_once = asked(alloc, &question, &kept, &names, ALL_AT_ONCE)?;
        assert!(rt; are(&at_once.yes, yes, ""), "{axioms} {class}");
        if *most > 0 {
            let cut = asked(alloc, &question, &kept, &names, *most - 1)?;
            assert!(rt; are(&cut.unknown, unknown, ""), "{axioms} {class}");
            assert!(rt; are(&cut.yes, yes, unknown), "{axioms} {class}");
        }
    }
    Ok(())
}

#[test]
fn a_name_is_an_answer_where_no_small_model_denies_it(rt: HostRuntime) -> Result<(), Fail> {
    let alloc = rt.alloc();
    for (count, axioms, _, denial, _, yes, _) in QUESTIONS.iter() {
        for name in 1..=*count {
            let text = format!(in alloc; "{axioms} {denial}{name}:")?;
            let denied = read(alloc, text.as_str())?;
            let small = has_small_model(alloc, &denied, *count, text.as_str())?;
            let answered = yes.as_bytes().contains(&b'0'.saturating_add(name));
            assert!(rt; answered != small, "{text}");
        }
    }
    Ok(())
}

#[test]
fn models_of_finished_branches_have_these_classes_and_pairs(rt: HostRuntime) -> Result<(), Fail> {
    let alloc = rt.alloc();
    for (count, axioms, elements, a, b, r, s) in PICTURES.iter() {
        let names = names_of(alloc, *count)?;
        let model = model_of(alloc, &names, axioms)?;
        let interp = model.interp();
        let mut name = WordId(49);
        for element in elements.as_bytes() {
            assert!(rt; digit(interp.element(name)) == *element, "{axioms}");
            name = WordId(name.0.saturating_add(1));
        }
        assert!(rt; has_extent(alloc, interp, b'A', a)?, "{axioms}");
        assert!(rt; has_extent(alloc, interp, b'B', b)?, "{axioms}");
        assert!(rt; has_pairs(alloc, interp, b'r', r)?, "{axioms}");
        assert!(rt; has_pairs(alloc, interp, b's', s)?, "{axioms}");
    }
    Ok(())
}

#[test]
fn axioms_that_hold_come_in_before_others_and_go_again(rt: HostRuntime) -> Result<(), Fail> {
    let alloc = rt.alloc();
    let names = names_of(alloc, 2)?.copy()?;
    let mut kept = model_of(alloc, &names, "A1: B2:")?;
    assert!(rt; !kept.insert(0, read(alloc, "B1:")?)?);
    assert!(rt; kept.insert(0, read(alloc, "T1: 12#")?)?);
    if kept.axioms().len() != 4 {
        return Err("four axioms".into());
    }
    kept.remove(1, 3);
    let [first, last] = kept.axioms().as_slice() else {
        return Err("two axioms".into());
    };
    assert!(rt; matches!(first, Axiom::Member(Class::Thing, WordId(49))));
    assert!(rt; matches!(last, Axiom::Member(Class::Named(WordId(66)), WordId(50))));
    Ok(())
}

// The digit of an element below 10.
fn digit(element: u64) -> u8 {
    match u8::try_from(element) {
        Ok(element) => element.saturating_add(b'0'),
        Err(_) => b'?',
    }
}

// Whether the class word has exactly the elements of these digits.
fn has_extent(alloc: Global, interp: &Interp, word: u8, digits: &str) -> Result<bool, Fail> {
    let mut found = Vec::new(alloc);
    for element in 0..interp.size() {
        if interp.has_element(WordId(u32::from(word)), element) {
            found.push(digit(element))?;
        }
    }
    Ok(found.as_slice() == digits.as_bytes())
}

// Whether the relation word has exactly the pairs of these digits, with a space between two pairs.
fn has_pairs(alloc: Global, interp: &Interp, word: u8, digits: &str) -> Result<bool, Fail> {
    let mut found = Vec::new(alloc);
    for from in 0..interp.size() {
        for to in 0..interp.size() {
            if interp.has_pair(WordId(u32::from(word)), from, to) {
                if !found.is_empty() {
                    found.push(b' ')?;
                }
                found.push(digit(from))?;
                found.push(digit(to))?;
            }
        }
    }
    Ok(found.as_slice() == digits.as_bytes())
}
