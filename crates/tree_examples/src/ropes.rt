// Lists of referents that were joined tell what those tell that grew entry by entry.
use codeco_terms::{Ground, Vals, Value};
use scopes::{Access, Entry};
use std::alloc::Global;
use std::process::Abort;
use std::test::Fail;
use wiki_base::Memory;

// An entry, with the position of a referent.
#[derive(Clone, Copy, Debug, PartialEq, Eq)]
enum Item {
    Opener,
    Weak(u16),
    Strong(u16),
}

// Entries, those of them that are no openers, and what closing leaves.
struct Case {
    items: &'static [Item],
    referents: &'static [Item],
    closed: &'static [Item],
}

const CASES: [Case; 8] = [
    Case {
        items: &[],
        referents: &[],
        closed: &[],
    },
    Case {
        items: &[Item::Weak(1)],
        referents: &[Item::Weak(1)],
        closed: &[Item::Weak(1)],
    },
    Case {
        items: &[Item::Opener],
        referents: &[],
        closed: &[],
    },
    Case {
        items: &[Item::Strong(1)],
        referents: &[Item::Strong(1)],
        closed: &[Item::Strong(1)],
    },
    Case {
        items: &[Item::Weak(1), Item::Opener, Item::Weak(2), Item::Strong(3)],
        referents: &[Item::Weak(1), Item::Weak(2), Item::Strong(3)],
        closed: &[Item::Weak(1), Item::Strong(3)],
    },
    Case {
        items: &[Item::Weak(1), Item::Strong(2), Item::Weak(3), Item::Weak(1)],
        referents: &[Item::Weak(1), Item::Strong(2), Item::Weak(3), Item::Weak(1)],
        closed: &[Item::Weak(1), Item::Strong(2), Item::Weak(3), Item::Weak(1)],
    },
    Case {
        items: &[
            Item::Strong(1),
            Item::Opener,
            Item::Opener,
            Item::Weak(2),
            Item::Strong(2),
            Item::Weak(1),
        ],
        referents: &[
            Item::Strong(1),
            Item::Weak(2),
            Item::Strong(2),
            Item::Weak(1),
        ],
        closed: &[Item::Strong(1), Item::Strong(2)],
    },
    Case {
        items: &[
            Item::Opener,
            Item::Weak(1),
            Item::Strong(2),
            Item::Opener,
            Item::Weak(1),
            Item::Strong(1),
            Item::Opener,
        ],
        referents: &[
            Item::Weak(1),
            Item::Strong(2),
            Item::Weak(1),
            Item::Strong(1),
        ],
        closed: &[Item::Strong(2), Item::Strong(1)],
    },
];

fn referent() -> Ground {
    let mut vals = Vals::new();
    vals.push(3, Value::Atom(2));
    Ground { name: 6, vals }
}

fn with_item(list: &Access, item: Item) -> Result<Access, Memory> {
    match item {
        Item::Opener => list.push_opener(),
        Item::Weak(pos) => list.refer(referent(), pos, false),
        Item::Strong(pos) => list.refer(referent(), pos, true),
    }
}

// The list that grows item by item.
fn grown(alloc: Global, items: &[Item]) -> Result<Access, Memory> {
    let mut list = Access::empty(alloc);
    for item in items {
        list = with_item(&list, *item)?;
    }
    Ok(list)
}

// The list that lists of one item each are joined to, one behind the other.
fn joined_behind(alloc: Global, items: &[Item]) -> Result<Access, Memory> {
    let mut list = Access::empty(alloc);
    for item in items {
        list = list.join(&with_item(&Access::empty(alloc), *item)?)?;
    }
    Ok(list)
}

// The list of lists of one item each that are joined from the last one on.
fn joined_before(alloc: Global, items: &[Item]) -> Result<Access, Memory> {
    let mut list = Access::empty(alloc);
    for item in items.iter().rev() {
        list = with_item(&Access::empty(alloc), *item)?.join(&list)?;
    }
    Ok(list)
}

// The list in one of seven ways: in one, by items, or of two or three parts that are joined.
fn made(alloc: Global, items: &[Item], way: usize) -> Result<Access, Memory> {
    let (front, back) = items.split_at(way % (items.len() / 2 + 1));
    match way % 7 {
        0 => grown(alloc, items),
        1 => joined_behind(alloc, items),
        2 => joined_before(alloc, items),
        3 => grown(alloc, front)?.join(&grown(alloc, back)?),
        4 => joined_before(alloc, front)?.join(&joined_behind(alloc, back)?),
        5 => joined_behind(alloc, front)?.join(&grown(alloc, back)?),
        _ => grown(alloc, front)?.join(&joined_before(alloc, back)?),
    }
}

fn item_of(entry: &Entry) -> Item {
    match entry {
        Entry::Opener => Item::Opener,
        Entry::Weak(_, pos) => Item::Weak(*pos),
        Entry::Strong(_, pos) => Item::Strong(*pos),
    }
}

fn items_of(alloc: Global, list: &Access) -> Result<Vec<Item>, Memory> {
    let mut items = Vec::new(alloc);
    for place in 0..list.len() {
        items.push(item_of(list.get(place)))?;
    }
    Ok(items)
}

fn has_items(alloc: Global, list: &Access, items: &[Item]) -> Result<bool, Memory> {
    let found = items_of(alloc, list)?;
    Ok(found.as_slice() == items)
}

// Whether the list and the entries from each place on are those of the items.
fn has_suffixes(alloc: Global, list: &Access, items: &[Item]) -> Result<bool, Memory> {
    if list.len() != items.len() {
        return Ok(false);
    }
    for place in 0..items.len() {
        if !has_items(alloc, &list.suffix(place)?, &items[place..])? {
            return Ok(false);
        }
    }
    has_items(alloc, &list.suffix(items.len())?, &[])
}

// Whether the list is that of the case, and so are its suffixes, its referents and what closing leaves.
fn is_as(alloc: Global, list: &Access, case: &Case) -> Result<bool, Memory> {
    let suffixes = has_suffixes(alloc, list, case.items)?;
    let referents = has_items(alloc, &list.referents()?, case.referents)?;
    let closed = has_items(alloc, &list.closed()?, case.closed)?;
    Ok(suffixes && referents && closed)
}

const WAYS: usize = 28;

fn each_way_is_as(rt: &impl Abort, alloc: Global, case: &Case) -> Result<(), Fail> {
    let plain = grown(alloc, case.items)?;
    for way in 0..WAYS {
        let list = made(alloc, case.items, way)?;
        let same = is_as(alloc, &list, case)?;
        assert!(rt; same, "{:?} in way {way}", case.items);
        assert!(rt;
            list.is_same(&plain) && plain.is_same(&list),
            "{:?} in way {way}",
            case.items
        );
    }
    Ok(())
}

#[test]
fn a_list_tells_the_same_however_it_was_joined(rt: HostRuntime) -> Result<(), Fail> {
    for case in &CASES {
        each_way_is_as(&rt, rt.alloc(), case)?;
    }
    Ok(())
}

// Whether lists of the items are the same exactly where the items are.
fn differ_as(alloc: Global, items: &[Item], others: &[Item]) -> Result<bool, Memory> {
    let one = joined_before(alloc, items)?;
    let other = joined_behind(alloc, others)?;
    Ok(one.is_same(&other) == (items == others))
}

#[test]
fn lists_of_other_entries_are_not_the_same(rt: HostRuntime) -> Result<(), Fail> {
    for case in &CASES {
        for other in &CASES {
            let told = differ_as(rt.alloc(), case.items, other.items)?;
            assert!(&rt; told, "{:?} and {:?}", case.items, other.items);
        }
    }
    Ok(())
}
