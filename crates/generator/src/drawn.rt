// Numbers that are drawn, and words that are counted by letters.
ghost use Rattle.std.specs.Prelude.{◌≡◌, ◌<◌, IfOk};
ghost use Rattle.std.specs.String.{string_bytes};
ghost use Rattle.generator.specs.Drawn as drawn;

use std::alloc::Global;
use wiki_base::Memory;

/// How many numbers may be drawn.
pub(crate) const MODULUS: u32 = 65_537;

/// The number that is drawn after another, each below 65,537.
pub fn next_draw(draw: u32) -> u32
    requires { draw < 65537 }
    ensures value { result ≡ drawn.next_draw draw }
    ensures below { result < 65537 }
{
    (draw * 75 + 74) % MODULUS
}

// The letter with the number, from `a` for 0.
fn letter(number: u32) -> &'static str
    requires { number < 20 }
    ensures { result.now ≡ drawn.letter number }
{
    match number {
        0 => "a",
        1 => "b",
        2 => "c",
        3 => "d",
        4 => "e",
        5 => "f",
        6 => "g",
        7 => "h",
        8 => "i",
        9 => "j",
        10 => "k",
        11 => "l",
        12 => "m",
        13 => "n",
        14 => "o",
        15 => "p",
        16 => "q",
        17 => "r",
        18 => "s",
        _ => "t",
    }
}

pub(crate) fn noun(alloc: Global, number: u32) -> Result<String, Memory>
    requires { number < 20 }
    ensures { IfOk result (λ text. string_bytes text ≡ drawn.noun number) }
{
    let letter = letter(number);
    Ok(format!(in alloc; "noun{letter}")?)
}

pub(crate) fn nouns(alloc: Global, number: u32) -> Result<String, Memory>
    requires { number < 20 }
    ensures { IfOk result (λ text. string_bytes text ≡ drawn.nouns number) }
{
    let noun = noun(alloc, number)?;
    Ok(format!(in alloc; "{noun}s")?)
}

pub(crate) fn name(alloc: Global, number: u32) -> Result<String, Memory>
    requires { number < 20 }
    ensures { IfOk result (λ text. string_bytes text ≡ drawn.name number) }
{
    let letter = letter(number);
    Ok(format!(in alloc; "Name{letter}")?)
}

pub(crate) fn verb(alloc: Global, number: u32) -> Result<String, Memory>
    requires { number < 20 }
    ensures { IfOk result (λ text. string_bytes text ≡ drawn.verb number) }
{
    let letter = letter(number);
    Ok(format!(in alloc; "verb{letter}")?)
}

pub(crate) fn verbs(alloc: Global, number: u32) -> Result<String, Memory>
    requires { number < 20 }
    ensures { IfOk result (λ text. string_bytes text ≡ drawn.verbs number) }
{
    let verb = verb(alloc, number)?;
    Ok(format!(in alloc; "{verb}s")?)
}

pub(crate) fn verbed(alloc: Global, number: u32) -> Result<String, Memory>
    requires { number < 20 }
    ensures { IfOk result (λ text. string_bytes text ≡ drawn.verbed number) }
{
    let verb = verb(alloc, number)?;
    Ok(format!(in alloc; "{verb}ed")?)
}
