// Another grammar for the wiki, and why its text is refused.
ghost use Rattle.std.specs.Prelude.{◌≡◌, None, [], ◌∷◌, IfOk, IfErr, OnOk, IsTrue};
ghost use Rattle.codeco_terms.specs.GrammarParts.{GrammarParts};
ghost use Rattle.codeco_checked.specs.Sound.{is_labelled};
ghost use Rattle.codeco_reader.specs.Texts.{IsTextOf};
ghost use Rattle.lexicon.specs.Words.{with_terminals, reground_refusal};
ghost use Rattle.wiki_parts.specs.Faults.{IsCause, IsFault};
ghost use Rattle.plain_wiki.specs.Causes.{FirstOf, is_no_grammar, is_bare, fault_name, fault_place};
ghost use Rattle.plain_wiki.specs.Words.{lexicon_refusal};

use crate::faults::Fault;
use crate::told::told_text;
use codeco_checked::{CheckedGrammar, GrammarFault};
use codeco_reader::read_grammar;
use lexicon::{LexFault, Lexicon};
use std::alloc::Global;
use wiki_base::Text8;
use wiki_talk::Refusal;

/// The grammar of a text, each of whose rules has a label. Refused are, in this order, a text with a fault, and rules without
/// labels.
pub fn grammar_read(alloc: Global, text: &Text8) -> Result<CheckedGrammar, Fault>
    ensures text { IfOk result (IsTextOf text.now) }
    ensures labelled { IfOk result (λ grammar. IsTrue (is_labelled grammar)) }
    ensures only { IfOk result (λ grammar. (other : GrammarParts) → IsTextOf text.now other → other ≡ grammar) }
    ensures refused { IfErr result (IsFault (FirstOf (is_no_grammar text.now ∷ is_bare text.now ∷ []))) }
{
    match read_grammar(alloc, text.as_str()) {
        Ok(grammar) => {
            if grammar.is_labelled() {
                Ok(grammar)
            } else {
                Err(Fault::Refused(Refusal::Bare))
            }
        }
        Err(fault) => Err(refused_for(alloc, fault)),
    }
}

// Tells the fault for which a text is refused.
fn refused_for(alloc: Global, fault: GrammarFault) -> Fault
    ensures refused { IsFault (λ refusal. refusal ≡ Refusal.GrammarRefused (fault_name fault) (fault_place fault)) result }
    ensures memory { fault ≡ GrammarFault.Memory → result ≡ Fault.Memory }
{
    if fault == GrammarFault::Memory {
        return Fault::Memory;
    }
    let (name, at) = name_and_place(fault);
    match Text8::from_str(alloc, name) {
        Ok(fault) => Fault::Refused(Refusal::GrammarRefused { fault, at }),
        Err(_) => Fault::Memory,
    }
}

// The name of a fault, and its byte, feature or rule.
fn name_and_place(fault: GrammarFault) -> (&'static str, u32)
    ensures name { result.0.now ≡ fault_name fault }
    ensures place { result.1 ≡ fault_place fault }
{
    match fault {
        GrammarFault::Syntax(byte) => ("Syntax", byte),
        GrammarFault::TooLarge(rule) => ("TooLarge", rule),
        GrammarFault::Undeclared(rule) => ("Undeclared", rule),
        GrammarFault::BadValue(rule) => ("BadValue", rule),
        GrammarFault::EmptyRule(rule) => ("EmptyRule", rule),
        GrammarFault::LeftRecursion(rule) => ("LeftRecursion", rule),
        GrammarFault::TakenVariable(rule) => ("TakenVariable", rule),
        GrammarFault::LabelKind(rule) => ("LabelKind", rule),
        GrammarFault::NoStart => ("NoStart", 0),
        GrammarFault::Memory => ("", 0),
    }
}

/// Stands the words beside the terminals of another grammar. Refused is the first form of a live word that is one of them.
pub fn reground(alloc: Global, lexicon: &mut Lexicon, grammar: &CheckedGrammar) -> Result<(), Fault>
    ensures regrounded { OnOk result (lexicon.new ≡ with_terminals lexicon.old grammar.now.terminals) }
    ensures free { OnOk result (reground_refusal lexicon.old.live grammar.now.terminals ≡ None) }
    ensures refused { IfErr result (IsCause (lexicon_refusal lexicon.old (reground_refusal lexicon.old.live grammar.now.terminals))) }
{
    match lexicon.reground(grammar.grammar()) {
        Ok(()) => Ok(()),
        Err(LexFault::Reserved { text }) => Err(Fault::Refused(Refusal::Reserved {
            text: told_text(alloc, &text)?,
        })),
        Err(LexFault::Taken { .. }) => unreachable!(),
        Err(LexFault::NoWord(_)) => unreachable!(),
        Err(LexFault::Full(_)) => unreachable!(),
        Err(LexFault::Memory) => Err(Fault::Memory),
    }
}
