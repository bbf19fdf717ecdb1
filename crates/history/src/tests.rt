// Changes are taken back and done again in the order of a stack, the newest hundred of them.
use crate::history::History;
use crate::kept::Kept;
use articles::{Sentences, Shared};
use owl_eval::Interp;
use std::alloc::Global;
use std::test::Fail;
use wiki_base::WordId;
use wiki_parts::Senses;

// What stood before the change with a number, told by the word of its article.
fn kept(alloc: Global, number: u32) -> Result<Kept, Fail> {
    let interp = Interp::new(alloc, 1, Vec::new(alloc), Vec::new(alloc), Vec::new(alloc))?;
    Ok(Kept {
        article: WordId(number),
        sentences: Sentences::new(alloc),
        senses: Senses::new(alloc),
        interp: Shared::new(alloc, interp)?,
    })
}

// Which change it was.
fn number_of(entry: Option<&Kept>) -> Option<u32> {
    entry.map(|kept| kept.article.0)
}

fn number_in(entry: Option<Kept>) -> Option<u32> {
    number_of(entry.as_ref())
}

#[test]
fn without_changes_nothing_is_taken_back(rt: HostRuntime) -> Result<(), Fail> {
    let alloc = rt.alloc();
    let mut history = History::new(alloc)?;
    assert_eq!(rt; number_of(history.last()), None);
    assert_eq!(rt; number_of(history.next()), None);
    assert_eq!(rt; number_in(history.undone(kept(alloc, 1)?)), None);
    assert_eq!(rt; number_in(history.redone(kept(alloc, 2)?)), None);
    assert_eq!(rt; number_of(history.next()), None);
    Ok(())
}

#[test]
fn what_is_taken_back_is_done_again(rt: HostRuntime) -> Result<(), Fail> {
    let alloc = rt.alloc();
    let mut history = History::new(alloc)?;
    for number in 1..4 {
        history.note(kept(alloc, number)?);
    }
    assert_eq!(rt; number_of(history.last()), Some(3));
    assert_eq!(rt; number_in(history.undone(kept(alloc, 14)?)), Some(3));
    assert_eq!(rt; number_in(history.undone(kept(alloc, 13)?)), Some(2));
    assert_eq!(rt; number_of(history.last()), Some(1));
    assert_eq!(rt; number_of(history.next()), Some(13));
    assert_eq!(rt; number_in(history.redone(kept(alloc, 22)?)), Some(13));
    assert_eq!(rt; number_of(history.last()), Some(22));
    history.note(kept(alloc, 5)?);
    assert_eq!(rt; number_of(history.next()), None);
    assert_eq!(rt; number_of(history.last()), Some(5));
    Ok(())
}

#[test]
fn the_newest_hundred_are_kept(rt: HostRuntime) -> Result<(), Fail> {
    let alloc = rt.alloc();
    let mut history = History::new(alloc)?;
    for number in 0..150 {
        history.note(kept(alloc, number)?);
    }
    for number in 0..100 {
        let back = number_in(history.undone(kept(alloc, 1_000)?));
        assert_eq!(rt; back, Some(149 - number));
    }
    assert_eq!(rt; number_in(history.undone(kept(alloc, 1_000)?)), None);
    for _ in 0..100 {
        assert_eq!(rt; number_in(history.redone(kept(alloc, 2_000)?)), Some(1_000));
    }
    assert_eq!(rt; number_of(history.next()), None);
    history.clear();
    assert_eq!(rt; number_of(history.last()), None);
    Ok(())
}
