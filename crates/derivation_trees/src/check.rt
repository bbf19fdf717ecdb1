// Whether a tree is a derivation of tokens.
ghost use Rattle.std.specs.Prelude.{◌≤◌, ◌≡◌, ◌↔◌, IsTrue, IfOk, length, map};
ghost use Rattle.lexicon.specs.Readings as lexical;
ghost use Rattle.derivation_trees.specs.Trees.{node_of};
ghost use Rattle.derivation_trees.specs.Derives.{IsDerivation};
ghost use Rattle.derivation_trees.specs.Sentences.{setting_of};
ghost use Rattle.derivation_trees.specs.Stands.{IsLimited};

use crate::derive::leads;
use crate::setting::Setting;
use crate::trees::Tree;
use codeco_checked::{CheckedGrammar, FIRST_PLAIN};
use lexicon::{Lexicon, Readings};
use scopes::{Access, Test, TestValues};
use std::alloc::Global;
use wiki_base::{MOST_TOKENS, Memory, Token, Tokens};

/// Whether the tree is a derivation of the tokens, of which there are at most 40, by the grammar with the words of the
/// lexicon: a tree with a rule for `text` that leads from place 0 and the empty list to the end of the tokens. Any tree
/// may be given; one that breaks a rule isn't a derivation.
pub fn check_tree(
    alloc: Global,
    grammar: &CheckedGrammar,
    lexicon: &Lexicon,
    tokens: &Tokens,
    tree: &Tree,
) -> Result<bool, Memory>
    requires { length tokens.now ≤ MOST_TOKENS }
    ensures { IfOk result
        (λ yes. IsTrue yes ↔ IsDerivation (setting_of grammar.now lexicon.now tokens.now) (node_of tree.now)) }
{
    let readings = readings_of(alloc, lexicon, tokens.as_slice())?;
    let setting = Setting {
        grammar: grammar.grammar(),
        tokens: tokens.as_slice(),
        readings: readings.as_slice(),
    };
    is_derivation(alloc, &setting, tree)
}

// Whether the tree is a derivation of the setting's tokens.
fn is_derivation(alloc: Global, setting: &Setting<'_>, tree: &Tree) -> Result<bool, Memory>
    requires { IsLimited setting.now.grammar }
    ensures { IfOk result (λ yes. IsTrue yes ↔ IsDerivation setting.now (node_of tree.now)) }
{
    let asked = Test {
        name: FIRST_PLAIN,
        values: TestValues::new(alloc),
    };
    let list = Access::empty(alloc);
    match leads(alloc, setting, tree, &asked, 0, &list)? {
        None => Ok(false),
        Some((place, _)) => Ok(place as usize == setting.tokens.len()),
    }
}

/// The readings of each token.
pub fn readings_of(
    alloc: Global,
    lexicon: &Lexicon,
    tokens: &[Token],
) -> Result<Vec<Readings>, Memory>
    ensures { IfOk result
        (λ readings. readings.items ≡ map (lexical.readings_of lexicon.now.live) tokens.now) }
{
    let mut readings = Vec::new(alloc);
    for token in tokens {
        readings.push(lexicon.readings(token.as_str()))?;
    }
    Ok(readings)
}
