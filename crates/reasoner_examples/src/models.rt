// An exhaustive search for models with few elements, which knows nothing of rules and branches.
ghost use Rattle.std.specs.Prelude.{◌<◌};

use logic_terms::Axioms;
use owl_eval::{Interp, is_model};
use std::alloc::Global;
use std::test::Fail;
use wiki_base::WordId;

const MOST_INTERPRETATIONS: u64 = 1_000_000;

/// Whether axioms have a model with at most three elements, or at most two where there are too many with three. The text is
/// that of the axioms: its signs are the words that an interpretation gives something.
pub fn has_small_model(
    alloc: Global,
    axioms: &Axioms,
    names: u8,
    text: &str,
) -> Result<bool, Fail> {
    for size in 1..4 {
        let count = count(size, names, text.as_bytes());
        if count > MOST_INTERPRETATIONS {
            return Ok(false);
        }
        for number in 0..count {
            if let Some(interp) = drawn(alloc, number, size, names, text.as_bytes())? {
                if is_model(&interp, axioms) {
                    return Ok(true);
                }
            }
        }
    }
    Ok(false)
}

// How many interpretations there are, or the greatest number where there are more.
fn count(size: u64, names: u8, signs: &[u8]) -> u64 {
    let mut count: u64 = 1;
    for _ in 0..names {
        let one = count;
        for _ in 1..size {
            count = count.saturating_add(one);
        }
    }
    for sign in b'A'..=b'H' {
        if signs.contains(&sign) {
            for _ in 0..size {
                count = count.saturating_add(count);
            }
        }
    }
    for sign in b'r'..=b't' {
        if names_relation(signs, sign) {
            for _ in 0..size {
                for _ in 0..size {
                    count = count.saturating_add(count);
                }
            }
        }
    }
    count
}

// Whether the relation word or its inverse stands in the text.
fn names_relation(signs: &[u8], sign: u8) -> bool {
    let inverse = match sign {
        b'r' => b'R',
        b's' => b'S',
        _ => b'U',
    };
    signs.contains(&sign) || signs.contains(&inverse)
}

// The interpretation with a number: its digits are the names' elements, and whether each element is in each class, and each
// pair in each relation.
fn drawn(
    alloc: Global,
    number: u64,
    size: u64,
    names: u8,
    signs: &[u8],
) -> Result<Option<Interp>, Fail>
    requires { 0 < size }
{
    let mut left = number;
    let mut elements = Vec::new(alloc);
    for name in 0..names {
        elements.push((WordId(49 + u32::from(name)), digit(&mut left, size)))?;
    }
    let mut classes = Vec::new(alloc);
    for sign in b'A'..=b'H' {
        if signs.contains(&sign) {
            classes.push((WordId(u32::from(sign)), members(alloc, &mut left, size)?))?;
        }
    }
    let mut relations = Vec::new(alloc);
    for sign in b'r'..=b't' {
        if names_relation(signs, sign) {
            relations.push((WordId(u32::from(sign)), pairs(alloc, &mut left, size)?))?;
        }
    }
    if !Interp::fits(size, &elements, &classes, &relations) {
        return Ok(None);
    }
    Ok(Some(Interp::new(alloc, size, elements, classes, relations)?))
}

fn members(alloc: Global, left: &mut u64, size: u64) -> Result<Vec<u64>, Fail> {
    let mut members = Vec::new(alloc);
    for element in 0..size {
        if digit(left, 2) == 1 {
            members.push(element)?;
        }
    }
    Ok(members)
}

fn pairs(alloc: Global, left: &mut u64, size: u64) -> Result<Vec<(u64, u64)>, Fail> {
    let mut pairs = Vec::new(alloc);
    for from in 0..size {
        for to in 0..size {
            if digit(left, 2) == 1 {
                pairs.push((from, to))?;
            }
        }
    }
    Ok(pairs)
}

// Takes the last digit off.
fn digit(left: &mut u64, base: u64) -> u64
    requires { 0 < base }
{
    let last = *left % base;
    *left /= base;
    last
}
