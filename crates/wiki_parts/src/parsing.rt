// What `parse` tells of a text: the code of its least skeleton, or how far its tokens can be typed.
ghost use Rattle.std.specs.Prelude.{◌≡◌, ◌≤◌, length, IfOk};
ghost use Rattle.wiki_base.specs.declared.tokens.TheConstants.{MOST_TOKENS};
ghost use Rattle.derivation_trees.specs.Codes.{skeleton_code};
ghost use Rattle.derivation_trees.specs.Sentences.{IsSentence};
ghost use Rattle.plain_wiki.specs.Parsing.{of_group, told_menu, IsNoSentence};
ghost use Rattle.plain_wiki.specs.Words.{full_at};

use crate::typing::{menu, typeable_count};
use codeco_checked::CheckedGrammar;
use derivations::{Group, Menu, Skeleton};
use lexicon::Lexicon;
use lists::Copied;
use std::alloc::Global;
use wiki_base::{Memory, Text8, Text8s, Tokens};
use wiki_talk::{Limit, MenuView, Numbers, Refusal};

/// Refuses a text of more tokens than a sentence may have.
pub fn too_many_tokens() -> Refusal
    ensures { result ≡ full_at Limit.Tokens }
{
    let which = Limit::Tokens;
    Refusal::Full {
        which,
        limit: which.amount(),
    }
}

/// The code of a skeleton, in numbers as they are told.
pub fn told_code(alloc: Global, skeleton: &Skeleton) -> Result<Numbers, Memory>
    ensures { IfOk result (λ told. told ≡ skeleton_code skeleton.now) }
{
    let code = skeleton.code(alloc)?;
    let mut told = Numbers::new(alloc);
    for number in code.as_slice() {
        told.push(u32::from(*number))?;
    }
    Ok(told)
}

/// Why tokens that have no derivation are no sentence.
pub fn no_sentence(
    alloc: Global,
    grammar: &CheckedGrammar,
    lexicon: &Lexicon,
    tokens: &Tokens,
) -> Result<Refusal, Memory>
    requires few { length tokens.now ≤ MOST_TOKENS }
    requires none { IsSentence grammar.now lexicon.now tokens.now → ⊥ }

    ensures { IfOk result (IsNoSentence grammar.now lexicon.now tokens.now) }
{
    let count = typeable_count(alloc, grammar, lexicon, tokens)?;
    let mut front = tokens.copy()?;
    front.truncate(count);
    let menu = menu(alloc, grammar, lexicon, &front)?;
    let menu = told_menu(alloc, &menu)?;
    Ok(Refusal::NotSentence {
        k: count as u32,
        menu,
    })
}

/// A menu as it is told.
pub fn told_menu(alloc: Global, menu: &Menu<'_>) -> Result<MenuView, Memory>
    ensures { IfOk result (λ told. told ≡ told_menu menu.now) }
{
    Ok(MenuView {
        adjective: of_group(alloc, menu, Group::Adjective)?,
        function: of_group(alloc, menu, Group::Function)?,
        name: of_group(alloc, menu, Group::Name)?,
        noun: of_group(alloc, menu, Group::Noun)?,
        of: of_group(alloc, menu, Group::Of)?,
        verb: of_group(alloc, menu, Group::Verb)?,
    })
}

// The tokens of a group.
fn of_group(alloc: Global, menu: &Menu<'_>, group: Group) -> Result<Text8s, Memory>
    ensures { IfOk result (λ texts. texts ≡ of_group group menu.now) }
{
    let mut texts = Text8s::new(alloc);
    for place in 0..menu.len() {
        let (entry, text) = menu.get(place);
        if entry.number() == group.number() {
            texts.push(Text8::from_str(alloc, text)?)?;
        }
    }
    Ok(texts)
}
