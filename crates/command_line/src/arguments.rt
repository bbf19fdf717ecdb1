// The words of the command line.
ghost use Rattle.std.specs.Prelude.{◌≡◌, ℕ, List, Option, None, IfOk, IfSome, slice_get};

use std::alloc::Global;
use std::env::{Env, FillError};
use wiki_base::{Arg, Memory};

/// A command line. It may tell its words to proofs.
pub trait CommandLine {
    /// The words behind the name of the program, in order, where the command line tells them.
    ghost words: { Self → Option (List (List ℕ)) };

    /// The word at a place, from 0, if there is one.
    fn word(&self, alloc: Global, place: usize) -> Result<Option<Arg>, Memory>
        ensures { IfOk result (λ word. IfSome (words self.now) (λ told. word ≡ slice_get told place)) };
}

/// All words of a command line.
pub fn words<C: CommandLine>(alloc: Global, line: &C) -> Result<Vec<Arg>, Memory>
    ensures { IfOk result (λ words. IfSome (C.words line.now) (λ told. words.items ≡ told)) }
{
    let mut words = Vec::new(alloc);
    for place in 0..usize::MAX {
        match line.word(alloc, place)? {
            Some(word) => words.push(word)?,
            None => return Ok(words),
        }
    }
    Err(Memory)
}

/// The command line of the process: the edge that is trusted. It tells nothing.
#[derive(Drop)]
pub struct ProcessLine<'a, R> {
    env: &'a R,
}

impl<'a, R: Env> ProcessLine<'a, R> {
    pub fn new(env: &'a R) -> Self {
        ProcessLine { env }
    }
}

impl<R: Env> CommandLine for ProcessLine<'_, R> {
    ghost words = { λ _. None };

    // The name of the program stands before the words.
    fn word(&self, alloc: Global, place: usize) -> Result<Option<Arg>, Memory> {
        let mut size = 256usize;
        for _ in 0..usize::BITS {
            let mut bytes = vec![in alloc; 0u8; size]?;
            match self.env.arg(place.saturating_add(1), bytes.as_mut_slice()) {
                Ok(length) => {
                    bytes.truncate(length);
                    return Ok(Some(Arg::from_vec(bytes)));
                }
                Err(FillError::NotPresent) => return Ok(None),
                Err(FillError::TooLong) => size = size.saturating_mul(2),
            }
        }
        Err(Memory)
    }
}
