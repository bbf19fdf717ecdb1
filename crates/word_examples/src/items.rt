// Lists and boxes at concrete types.
use lists::{Boxed, Copied, List, Memory};
use std::alloc::Global;
use std::process::Abort;
use std::test::Fail;

// Items that are added at the end, at the front, from a list and from a slice.
fn added(alloc: Global) -> Result<List<u16>, Memory> {
    let mut list = List::new(alloc);
    list.push(1u16)?;
    list.insert(0, 5)?;
    list.append(List::from_slice(alloc, &[7, 8])?)?;
    list.extend(&[9])?;
    Ok(list)
}

fn assert_items(rt: &impl Abort, list: &List<u16>, wanted: &[u16]) {
    assert!(rt; list.is_empty() == wanted.is_empty());
    assert!(rt; list.as_slice() == wanted);
}

#[test]
fn items_are_added_changed_and_taken_out(rt: HostRuntime) -> Result<(), Fail> {
    assert_items(&rt, &List::new(rt.alloc()), &[]);
    let mut list = added(rt.alloc())?;
    assert_items(&rt, &list, &[5, 1, 7, 8, 9]);
    assert!(rt; list.len() == 5);
    assert!(rt; list.replace(1, 2) == 1);
    list.set(0, 4);
    assert!(rt; list.remove(2) == 7);
    assert!(rt; list.pop() == Some(9));
    assert_items(&rt, &List::from_vec(list.copy()?.into_vec()), &[4, 2, 8]);
    list.truncate(1);
    assert!(rt; list.len() == 1);
    assert!(rt; *list.get(0) == 4);
    Ok(())
}

#[test]
fn boxes_and_pairs_are_copied(rt: HostRuntime) -> Result<(), Fail> {
    let alloc = rt.alloc();
    let mut list = List::from_vec(Vec::new(alloc));
    list.push((Some(Boxed::new(alloc, 3u64)?), true))?;
    let copy = list.copy()?;
    assert!(rt; copy.get(0).1);
    boxed_pair_is_copied(&rt, copy.allocator())
}

fn boxed_pair_is_copied(rt: &impl Abort, alloc: Global) -> Result<(), Fail> {
    let boxed = Boxed::new(alloc, (1u8, 2u32))?;
    assert!(rt; boxed.get().0 == 1);
    assert!(rt; boxed.copy()?.into_inner().1 == 2);
    let again = List::copied(boxed.allocator(), &[9usize])?;
    assert!(rt; *again.get(0) == 9);
    assert!(rt; List::from_slice(alloc, b"ab")?.as_bytes() == b"ab".as_slice());
    Ok(())
}
