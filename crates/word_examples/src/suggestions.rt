// Forms of words: those that are suggested, and those that are refused.
use lexicon::{FormFault, Kind, Texts, forms};
use std::alloc::Global;
use std::test::Fail;
use wiki_base::{Copied, Text};

// The forms for one text, each behind a space.
fn told(alloc: Global, kind: Kind, text: &str) -> Result<String, Fail> {
    let mut given = Vec::new(alloc);
    given.push(Text::read(alloc, text)?)?;
    let forms = forms(alloc, kind, given.as_slice())?;
    let mut told = String::new(alloc);
    for form in forms.texts.as_slice() {
        told.push(' ')?;
        told.push_str(form.as_str())?;
    }
    Ok(told)
}

#[test]
fn suggestions_follow_the_spelling(rt: HostRuntime) -> Result<(), Fail> {
    for (kind, text, wanted) in &[
        (Kind::Noun, "country", " country countries"),
        (Kind::Noun, "city", " city cities"),
        (Kind::Noun, "bus", " bus buses"),
        (Kind::Noun, "box", " box boxes"),
        (Kind::Noun, "church", " church churches"),
        (Kind::Noun, "dish", " dish dishes"),
        (Kind::Noun, "day", " day days"),
        (Kind::Noun, "y", " y ys"),
        (Kind::Noun, "a-y", " a-y a-ys"),
        (Kind::Noun, "Ay", " Ay Aies"),
        (Kind::Noun, "h", " h hs"),
        (Kind::Verb, "try", " tries try tried"),
        (Kind::Verb, "play", " plays play played"),
        (Kind::Verb, "border", " borders border bordered"),
        (Kind::Verb, "love", " loves love loved"),
        (Kind::Of, "part", " part"),
    ] {
        let told = told(rt.alloc(), *kind, text)?;
        assert!(rt; told.as_str() == *wanted);
    }
    Ok(())
}

// Why these texts are no forms of a word of the kind.
fn fault(alloc: Global, kind: Kind, texts: &[&str]) -> Result<FormFault, Fail> {
    let mut given = Vec::new(alloc);
    for text in texts {
        given.push(Text::read(alloc, text)?)?;
    }
    match forms(alloc, kind, &given) {
        Ok(_) => Err(Fail::from("accepted")),
        Err(fault) => Ok(fault),
    }
}

#[test]
fn other_counts_and_long_suggestions_are_refused(rt: HostRuntime) -> Result<(), Fail> {
    let long = "aaaaaaaaaaaaaaaaaaaaaaaaaaaaaaaaaaaaaaaaaaaaaaaaaaaaaaaaaaaaaaaa";
    let rows: &[(Kind, &[&str], FormFault)] = &[
        (Kind::Name, &["a", "b"], FormFault::Count(2)),
        (Kind::Verb, &["a", "b"], FormFault::Count(2)),
        (Kind::Noun, &[], FormFault::Count(0)),
        (Kind::Noun, &[long], FormFault::TooLong(1)),
    ];
    for (kind, texts, wanted) in rows {
        assert!(rt; fault(rt.alloc(), *kind, texts)? == *wanted);
    }
    Ok(())
}

fn one_text(alloc: Global) -> Result<Texts, Fail> {
    let mut items = Vec::new(alloc);
    items.push(Text::read(alloc, "Bern")?)?;
    Ok(Texts::from_vec(items))
}

// Whether it is the one text that makes a name.
fn is_bern(texts: &Texts) -> bool {
    texts.len() == Kind::Name.form_count() && !texts.is_empty() && texts.get(0).as_str() == "Bern"
}

#[test]
fn texts_are_lent_and_given_back(rt: HostRuntime) -> Result<(), Fail> {
    let texts = one_text(rt.alloc())?;
    assert!(rt; is_bern(&texts));
    assert!(rt; texts.copy()?.len() == 1);
    assert!(rt; texts.into_vec().len() == 1);
    Ok(())
}
