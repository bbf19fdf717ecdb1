// Another grammar, by which each sentence keeps its meaning.
ghost use Rattle.std.specs.Prelude.{◌≡◌, IfOk, IfErr, OnOk, IsTrue};
ghost use Rattle.codeco_checked.specs.Sound.{is_labelled};
ghost use Rattle.wiki_parts.specs.Faults.{IsFault};
ghost use Rattle.wiki_store.specs.Rewording.{KeepsSentences};
ghost use Rattle.plain_wiki.specs.Against.{against_wiki};
ghost use Rattle.plain_wiki.specs.Causes.{FirstOf, NoneOf};
ghost use Rattle.plain_wiki.specs.Doing.{TakesGrammar};

use crate::base::Base;
use codeco_checked::CheckedGrammar;
use lexicon::Lexicon;
use lists::Copied;
use wiki_base::Text8;
use wiki_parts::{Fault, grammar_read, reground};
use wiki_talk::{Reply, WikiRequest};

impl Base {
    // The grammar of a text, and the words beside its terminals, if each sentence keeps its meaning by them. Refused are, in this
    // order, a text that is no grammar, rules without labels, a grammar with a form of a live word, and one by which a sentence
    // has no derivation, or another meaning.
    pub(crate) fn regrounding(&self, text: &Text8) -> Result<(CheckedGrammar, Lexicon), Fault>
        ensures free { OnOk result (NoneOf (against_wiki self.now.state (WikiRequest.Grammar text.now))) }
        ensures takes { IfOk result (λ made. TakesGrammar text.now self.now.state Reply.Grammar (record self.now.state { grammar = made.0; words = made.1 })) }
        ensures labelled { IfOk result (λ made. IsTrue (is_labelled made.0)) }
        ensures keeps { IfOk result (λ made. KeepsSentences self.now.state made.0 made.1) }
        ensures refused { IfErr result (IsFault (FirstOf (against_wiki self.now.state (WikiRequest.Grammar text.now)))) }
    {
        let grammar = grammar_read(self.alloc, text)?;
        let mut lexicon = self.lexicon.copy()?;
        reground(self.alloc, &mut lexicon, &grammar)?;
        self.unbroken(&grammar, &lexicon, None)?;
        Ok((grammar, lexicon))
    }

    // Takes in a grammar and words by which each sentence keeps its meaning.
    pub(crate) fn regrounded(&mut self, grammar: CheckedGrammar, lexicon: Lexicon)
        requires labelled { IsTrue (is_labelled grammar) }
        requires keeps { KeepsSentences self.old.state grammar lexicon }
        ensures { self.new ≡ record self.old { state = record self.old.state { grammar = grammar; words = lexicon } } }
    {
        self.grammar = grammar;
        self.lexicon = lexicon;
    }
}
