// The commands `say`, `export` and `why`: the lines of the input, and then a text about the wiki.
ghost use Rattle.std.specs.Prelude.{◌≡◌, option_map};
ghost use Rattle.wiki_io.specs.Faults.{Rose};
ghost use Rattle.commands.specs.Steps.{EndsWriting};
ghost use Rattle.commands.specs.Theorem.{Retells, IsSaid, IsFile, IsWhy};
ghost use Rattle.commands.specs.Wiki.{new_wiki};

use crate::recalling::RecallingWiki;
use crate::serve::step_input;
use command_line::Outcome;
use std::alloc::Global;
use wiki_base::{Memory, Text8};
use wiki_io::{Sink, Source, put};

/// Steps through the lines of the input, and then says all that the wiki knows, a line for each axiom.
pub fn say<S: Source, K: Sink>(alloc: Global, budget: u64, input: &mut S, output: &mut K) -> Outcome
    ensures retells { Retells IsSaid (new_wiki budget) (S.left input.old) (K.taken output.old) result (S.left input.new) (K.taken output.new) }
    ensures read_fault { result ≡ Outcome.ReadFault → Rose (S.faults input.old) (S.faults input.new) }
    ensures write_fault { result ≡ Outcome.WriteFault → Rose (K.faults output.old) (K.faults output.new) }
    ensures link_fault { result ≡ Outcome.LinkFault → ⊥ }
{
    match RecallingWiki::new(alloc, budget) {
        Ok(mut wiki) => say_input(alloc, &mut wiki, input, output),
        Err(Memory) => Outcome::Memory,
    }
}

// Steps the wiki through the lines of the input, and says all that it knows then.
fn say_input<S: Source, K: Sink>(
    alloc: Global,
    wiki: &mut RecallingWiki,
    input: &mut S,
    output: &mut K,
) -> Outcome
    ensures retells { Retells IsSaid wiki.old (S.left input.old) (K.taken output.old) result (S.left input.new) (K.taken output.new) }
    ensures read_fault { result ≡ Outcome.ReadFault → Rose (S.faults input.old) (S.faults input.new) }
    ensures write_fault { result ≡ Outcome.WriteFault → Rose (K.faults output.old) (K.faults output.new) }
    ensures link_fault { result ≡ Outcome.LinkFault → ⊥ }
{
    match step_input(alloc, wiki, input) {
        Outcome::Done => {
            let text = retelling::say_all(alloc, wiki.inner());
            write(text, output)
        }
        outcome => outcome,
    }
}

/// Steps through the lines of the input, and then writes all that the wiki knows as an ontology.
pub fn export<S: Source, K: Sink>(
    alloc: Global,
    budget: u64,
    input: &mut S,
    output: &mut K,
) -> Outcome
    ensures retells { Retells IsFile (new_wiki budget) (S.left input.old) (K.taken output.old) result (S.left input.new) (K.taken output.new) }
    ensures read_fault { result ≡ Outcome.ReadFault → Rose (S.faults input.old) (S.faults input.new) }
    ensures write_fault { result ≡ Outcome.WriteFault → Rose (K.faults output.old) (K.faults output.new) }
    ensures link_fault { result ≡ Outcome.LinkFault → ⊥ }
{
    match RecallingWiki::new(alloc, budget) {
        Ok(mut wiki) => export_input(alloc, &mut wiki, input, output),
        Err(Memory) => Outcome::Memory,
    }
}

// Steps the wiki through the lines of the input, and writes all that it knows then as an ontology.
fn export_input<S: Source, K: Sink>(
    alloc: Global,
    wiki: &mut RecallingWiki,
    input: &mut S,
    output: &mut K,
) -> Outcome
    ensures retells { Retells IsFile wiki.old (S.left input.old) (K.taken output.old) result (S.left input.new) (K.taken output.new) }
    ensures read_fault { result ≡ Outcome.ReadFault → Rose (S.faults input.old) (S.faults input.new) }
    ensures write_fault { result ≡ Outcome.WriteFault → Rose (K.faults output.old) (K.faults output.new) }
    ensures link_fault { result ≡ Outcome.LinkFault → ⊥ }
{
    match step_input(alloc, wiki, input) {
        Outcome::Done => {
            let text = retelling::file_of(alloc, wiki.inner());
            write(text, output)
        }
        outcome => outcome,
    }
}

/// Steps through the lines of the input, and then tells why the sentence at a place of an article isn't asserted, or why a
/// name is an answer to it.
pub fn why<S: Source, K: Sink>(
    alloc: Global,
    budget: u64,
    article: &str,
    at: u32,
    name: Option<&str>,
    input: &mut S,
    output: &mut K,
) -> Outcome
    ensures retells { Retells (IsWhy budget article.now at (option_map (λ form. form.now) name.entry)) (new_wiki budget)
        (S.left input.old) (K.taken output.old) result (S.left input.new) (K.taken output.new) }
    ensures read_fault { result ≡ Outcome.ReadFault → Rose (S.faults input.old) (S.faults input.new) }
    ensures write_fault { result ≡ Outcome.WriteFault → Rose (K.faults output.old) (K.faults output.new) }
    ensures link_fault { result ≡ Outcome.LinkFault → ⊥ }
{
    match RecallingWiki::new(alloc, budget) {
        Ok(mut wiki) => {
            let asked = Asked {
                budget,
                article,
                at,
                name,
            };
            why_input(alloc, &mut wiki, &asked, input, output)
        }
        Err(Memory) => Outcome::Memory,
    }
}

// What `why` is asked: the sentence at a place of an article, or the name as an answer to it, with the budget of each search.
#[derive(Clone, Copy)]
struct Asked<'a> {
    budget: u64,
    article: &'a str,
    at: u32,
    name: Option<&'a str>,
}

// Steps the wiki through the lines of the input, and tells why a sentence isn't asserted then, or why a name is an answer to it.
fn why_input<S: Source, K: Sink>(
    alloc: Global,
    wiki: &mut RecallingWiki,
    asked: &Asked<'_>,
    input: &mut S,
    output: &mut K,
) -> Outcome
    ensures retells { Retells (IsWhy asked.now.budget asked.now.article.now asked.now.at (option_map (λ form. form.now) asked.now.name)) wiki.old
        (S.left input.old) (K.taken output.old) result (S.left input.new) (K.taken output.new) }
    ensures read_fault { result ≡ Outcome.ReadFault → Rose (S.faults input.old) (S.faults input.new) }
    ensures write_fault { result ≡ Outcome.WriteFault → Rose (K.faults output.old) (K.faults output.new) }
    ensures link_fault { result ≡ Outcome.LinkFault → ⊥ }
{
    match step_input(alloc, wiki, input) {
        Outcome::Done => {
            let (budget, at) = (asked.budget, asked.at);
            let text = retelling::why(alloc, wiki.inner(), budget, asked.article, at, asked.name);
            write(text, output)
        }
        outcome => outcome,
    }
}

/// Writes a text, where there was memory for it.
pub fn write<K: Sink>(text: Result<Text8, Memory>, output: &mut K) -> Outcome
    ensures ends { EndsWriting text result (K.taken output.old) (K.taken output.new) }
    ensures write_fault { result ≡ Outcome.WriteFault → Rose (K.faults output.old) (K.faults output.new) }
{
    match text {
        Ok(text) => {
            if put(output, text.as_bytes()) {
                Outcome::Done
            } else {
                Outcome::WriteFault
            }
        }
        Err(Memory) => Outcome::Memory,
    }
}
