// Menus that are filtered by what is typed of the next token.
use derivations::{Group, Menu};
use editor::Editor;
use std::alloc::Global;
use std::test::Fail;
use wiki_base::Memory;

// What begins a sentence in a wiki with one name.
fn beginnings(alloc: Global) -> Result<Menu<'static>, Memory> {
    let mut menu = Menu::new(alloc);
    for text in &[
        "X",
        "Y",
        "Z",
        "a",
        "an",
        "every",
        "everything",
        "if",
        "no",
        "nothing",
        "something",
        "what",
        "which",
        "who",
    ] {
        menu.push(Group::Function, *text)?;
    }
    menu.push(Group::Name, "Mary")?;
    Ok(menu)
}

// The texts of the entries that begin with a prefix, each with a space behind it.
fn told_from(alloc: Global, menu: &Menu<'_>, prefix: &str) -> Result<String, Memory> {
    let kept = Editor::filter(alloc, menu, prefix)?;
    let mut texts = String::new(alloc);
    for place in 0..kept.len() {
        let (_, text) = kept.get(place);
        texts.push_str(text)?;
        texts.push(' ')?;
    }
    Ok(texts)
}

#[test]
fn entries_that_begin_so_are_kept(rt: HostRuntime) -> Result<(), Fail> {
    let menu = beginnings(rt.alloc())?;
    for (prefix, kept) in &[
        ("ev", "every everything "),
        ("everything", "everything "),
        ("everythings", ""),
        ("thing", ""),
        ("m", ""),
        ("M", "Mary "),
        ("wh", "what which who "),
    ] {
        let told = told_from(rt.alloc(), &menu, prefix)?;
        assert_eq!(rt; told.as_str(), *kept, "{prefix}");
    }
    Ok(())
}
