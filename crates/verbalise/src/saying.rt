// The sentence of an axiom, read again before it is told.
ghost use Rattle.std.specs.Prelude.{◌≡◌, ◌≤◌, ◌↔◌, ℕ, List, [], ◌∷◌, None, length, IfOk, IsTrue};
ghost use Rattle.wiki_base.specs.declared.tokens.TheConstants.{MOST_TOKENS};
ghost use Rattle.codeco_checked.specs.Sound.{is_labelled};
ghost use Rattle.lexicon.specs.Words.{Listed};
ghost use Rattle.logic_terms.specs.Concept.{Claim};
ghost use Rattle.logic_terms.specs.Shown.{claim_of};
ghost use Rattle.verbalise.specs.Said.{said};
ghost use Rattle.verbalise.specs.Readings.{ReadsAs, stating};
ghost use Rattle.verbalise.specs.Spoken.{told, is_no_pattern, SaysExactly, IsTooLong, ReadsOtherwise, AreTrueTogether, SaysTruly, Answers};

use crate::axioms::said;
use crate::readings::{Reading, is_exactly, reading_of};
use codeco_checked::CheckedGrammar;
use lexicon::Lexicon;
use logic_terms::Axiom;
use std::alloc::Global;
use wiki_base::{MOST_TOKENS, Memory, Tokens};

/// How an axiom is said.
#[derive(Drop)]
pub enum Spoken {
    /// As this sentence, which is read as exactly that axiom.
    Sentence(Tokens),
    /// No pattern fits the axiom.
    NoPattern,
    /// By so many tokens, at most 4,294,967,295 being told: more than a sentence may have.
    TooLong(u32),
    /// As these tokens, which are read otherwise.
    ReadOtherwise(Tokens, Reading),
}

/// Says an axiom as a sentence of the grammar with the words of the lexicon, by the pattern that fits the axiom. The sentence
/// is read again: it is told only where it states exactly that axiom, and so is true wherever the axiom is. A word that
/// doesn't live, or is of another kind than its place asks for (a noun for a class; a verb, an adjective or an of-construct
/// for a relation; a name), fits no pattern.
pub fn say(grammar: &CheckedGrammar, lexicon: &Lexicon, axiom: &Axiom) -> Result<Spoken, Memory>
    requires labelled { IsTrue (is_labelled grammar.now) }

    // A sentence is told only where the axiom is said so, and the sentence is read as exactly that axiom.
    ensures sentence { IfOk result (SaysExactly grammar.now lexicon.now (claim_of «axiom».now)) }
    // It is true in the same finite interpretations as the axiom.
    ensures truth { IfOk result (SaysTruly grammar.now lexicon.now (claim_of «axiom».now)) }
    // The other answers, each exactly where it is right.
    ensures no_pattern { IfOk result (λ spoken. IsTrue (is_no_pattern spoken) ↔ (said lexicon.now.live (claim_of «axiom».now) ≡ None)) }
    ensures too_long { IfOk result (λ spoken. (n : ℕ) → (spoken ≡ Spoken.TooLong n) ↔ IsTooLong lexicon.now (claim_of «axiom».now) n) }
    ensures read_otherwise { IfOk result (ReadsOtherwise grammar.now lexicon.now (claim_of «axiom».now)) }
{
    keeps_truth(grammar);
    let alloc = lexicon.terminals().allocator();
    let Some(tokens) = said(alloc, lexicon, axiom)? else {
        return Ok(Spoken::NoPattern);
    };
    if tokens.len() > MOST_TOKENS {
        return Ok(Spoken::TooLong(told(tokens.len())));
    }
    answer(alloc, grammar, lexicon, axiom, tokens)
}

// Tells the tokens that an axiom is said as by what they are read as.
fn answer(
    alloc: Global,
    grammar: &CheckedGrammar,
    words: &Lexicon,
    axiom: &Axiom,
    tokens: Tokens,
) -> Result<Spoken, Memory>
    requires labelled { IsTrue (is_labelled grammar.now) }
    requires few { length tokens ≤ MOST_TOKENS }
    ensures { IfOk result (Answers grammar.now words.now (claim_of «axiom».now) tokens) }
{
    let reading = reading_of(alloc, grammar, words, &tokens)?;
    if is_exactly(&reading, axiom) {
        Ok(Spoken::Sentence(tokens))
    } else {
        Ok(Spoken::ReadOtherwise(tokens, reading))
    }
}

fn told(count: usize) -> u32
    ensures { result ≡ told count }
{
    count.min(4_294_967_295) as u32
}

// Whatever is read as exactly one axiom is true where the axiom is.
fn keeps_truth(grammar: &CheckedGrammar)
    ensures { (words : Listed) (tokens : List (List ℕ)) (claim : Claim)
        → ReadsAs grammar.now words tokens (stating (claim ∷ [])) → AreTrueTogether grammar.now words tokens claim }
{
    let _ = grammar.grammar();
}
