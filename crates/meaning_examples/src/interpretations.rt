// All interpretations of one and of two elements over two class words and one relation word, and two names.
ghost use Rattle.std.specs.Prelude.{◌<◌};

use crate::meanings::{BILL, BORDER, CAT, COUNTRY, DOG, GERMANY, MAN, MARY, NEAR, OWN, PART, SEE};
use owl_eval::Interp;
use std::alloc::Global;
use std::test::Fail;
use wiki_base::{Memory, WordId};

// Whether the code has the bit.
fn has(code: u32, place: u32) -> bool
    requires { place < 32 }
{
    (code >> place) & 1 == 1
}

fn elements(alloc: Global, zero: bool, one: bool) -> Result<Vec<u64>, Memory> {
    let mut elements = Vec::new(alloc);
    if zero {
        elements.push(0)?;
    }
    if one {
        elements.push(1)?;
    }
    Ok(elements)
}

fn pairs(alloc: Global, code: u32) -> Result<Vec<(u64, u64)>, Memory> {
    let mut pairs = Vec::new(alloc);
    if has(code, 2) {
        pairs.push((0, 0))?;
    }
    if has(code, 5) {
        pairs.push((0, 1))?;
    }
    if has(code, 6) {
        pairs.push((1, 0))?;
    }
    if has(code, 7) {
        pairs.push((1, 1))?;
    }
    Ok(pairs)
}

fn classes(alloc: Global, code: u32) -> Result<Vec<(WordId, Vec<u64>)>, Memory> {
    let mut classes = Vec::new(alloc);
    classes.push((MAN, elements(alloc, has(code, 0), has(code, 3))?))?;
    classes.push((DOG, elements(alloc, has(code, 1), has(code, 4))?))?;
    classes.push((CAT, elements(alloc, has(code, 0), has(code, 3))?))?;
    classes.push((COUNTRY, elements(alloc, has(code, 1), has(code, 4))?))?;
    Ok(classes)
}

fn relations(alloc: Global, code: u32) -> Result<Vec<(WordId, Vec<(u64, u64)>)>, Memory> {
    let mut relations = Vec::new(alloc);
    for word in [SEE, OWN, BORDER, PART, NEAR] {
        relations.push((word, pairs(alloc, code)?))?;
    }
    Ok(relations)
}

/// The interpretation of the size with the code, whose bits are: element 0 is in the one class, it is in the other, it is a
/// pair with itself, element 1 is in the one class, it is in the other, and then the other three pairs and both names.
pub fn interpretation(alloc: Global, size: u64, code: u32) -> Result<Interp, Fail> {
    let mut names = Vec::new(alloc);
    names.push((MARY, u64::from(has(code, 8))))?;
    names.push((BILL, u64::from(has(code, 9))))?;
    names.push((GERMANY, u64::from(has(code, 9))))?;
    let classes = classes(alloc, code)?;
    let relations = relations(alloc, code)?;
    if !Interp::fits(
        size,
        names.as_slice(),
        classes.as_slice(),
        relations.as_slice(),
    ) {
        return Err(Fail::new("an interpretation"));
    }
    Ok(Interp::new(alloc, size, names, classes, relations)?)
}

/// All of them.
pub fn all_interpretations(alloc: Global) -> Result<Vec<Interp>, Fail> {
    let mut all = Vec::new(alloc);
    for code in 0..8 {
        all.push(interpretation(alloc, 1, code)?)?;
    }
    for code in 0..1024 {
        all.push(interpretation(alloc, 2, code)?)?;
    }
    Ok(all)
}
