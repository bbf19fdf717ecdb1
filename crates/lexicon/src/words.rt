// The live words of a wiki.
ghost use Rattle.std.specs.Prelude.{◌≡◌, ◌+◌, ◌<◌, ◌≤◌, ◌↔◌, [], length, IfOk, IfErr, IfSome, OnOk, OnErr, IsSome, is_some, IsTrue, MatchOption, slice_get, Some, None, option_copied};
ghost use Rattle.lexicon.specs.declared.words.LexFault.TheVariants.{Memory as out_of_memory};
ghost use Rattle.lexicon.specs.Words.{first_reserved, reground_refusal, IsRefusal};

use crate::index::{Index, enter, forget, keys_of, make_room};
use crate::kinds::{Forms, Texts};
use crate::readings::{Readings, readings_of_word};
use crate::terminals::is_reserved;
use codeco_terms::{Grammar, Symbols};
use std::alloc::{AllocError, AllocFailed, Global};
use std::collections::HashMap;
use std::marker::Model;
use std::mem;
use wiki_base::{Copied, List, Memory, Spelled, Text, WordId};

/// The greatest number of live words.
pub const MOST_WORDS: usize = 5000;

/// The last number that a word can be given.
pub const LAST_NUMBER: u32 = 4_294_967_295;

impl Copied for Word {
    fn copy(&self) -> Result<Self, Memory> {
        Ok(Word {
            id: self.id,
            forms: self.forms.copy()?,
        })
    }
}

/// What bounds a lexicon.
#[derive(Clone, Copy, Debug, PartialEq, Eq)]
pub enum LexLimit {
    /// The live words: `MOST_WORDS`.
    Words,
    /// The numbers that are given: up to `LAST_NUMBER`.
    Numbers,
}

/// One live word.
#[derive(Drop)]
pub struct Word {
    pub id: WordId,
    pub forms: Forms,
}

/// Why a change of a lexicon is refused.
#[derive(Drop)]
pub enum LexFault {
    /// The text is a form of another live word.
    Taken { text: Text, owner: WordId },
    /// The text is a terminal of the grammar, or one with its first letter raised to upper case.
    Reserved { text: Text },
    /// No live word has the number.
    NoWord(WordId),
    /// The limit is reached: there are `MOST_WORDS` live words, or `LAST_NUMBER` was given.
    Full(LexLimit),
    Memory,
}

impl From<Memory> for LexFault {
    ghost from_gives = { λ _ fault. fault ≡ out_of_memory };

    fn from(_: Memory) -> Self {
        LexFault::Memory
    }
}

impl From<AllocError> for LexFault {
    ghost from_gives = { λ _ fault. fault ≡ out_of_memory };

    fn from(_: AllocError) -> Self {
        LexFault::Memory
    }
}

/// The live words of a wiki in order of number, the terminals of its grammar, and the last number that was given. It is
/// seen as these; inside, a table finds the word of a form.
#[derive(Drop)]
pub struct Lexicon {
    words: Vec<Word>,
    terminals: Symbols,
    last: u32,
    index: Index,
}

impl Model for Lexicon {
    ghost use Rattle.lexicon.specs.Words.{Listed, IsLexicon};
    ghost use Rattle.lexicon.specs.Index.{Indexes};

    ghost Value = { Listed };

    ghost view = { λ l. record { live = l.words.items; terminals = l.terminals; last = l.last } };

    ghost invariant = { λ l. IsLexicon (record { live = l.words.items; terminals = l.terminals; last = l.last }) × Indexes l.words.items l.index };
}

impl Lexicon {
    ghost use Rattle.lexicon.specs.Words.{IsLexicon, IsPlaceOf, owner, others, forms_of, with_word, with_forms, without_word, with_terminals, first_taken, fullness, forms_refusal, add_refusal, reword_refusal};
    ghost use Rattle.lexicon.specs.declared.kinds.Forms.{Forms};
    ghost use Rattle.lexicon.specs.Readings.{readings_of};
    ghost use Rattle.lexicon.specs.Kinds.{IsComplete};

    /// A lexicon with no words, beside the terminals of the grammar.
    pub fn new(alloc: Global, grammar: &Grammar) -> Result<Self, Memory>
        ensures words { IfOk result (λ lexicon. lexicon.live ≡ []) }
        ensures terminals { IfOk result (λ lexicon. lexicon.terminals ≡ grammar.now.terminals) }
        ensures last { IfOk result (λ lexicon. lexicon.last ≡ 0) }
    {
        Ok(Lexicon {
            words: Vec::new(alloc),
            terminals: grammar.terminals().copy()?,
            last: 0,
            index: HashMap::new(alloc),
        })
    }

    /// How many words live.
    pub fn len(&self) -> usize
        ensures words { result ≡ length self.now.live }
        ensures lexicon { IsLexicon self.now }
    {
        self.words.len()
    }

    /// Whether no word lives.
    pub fn is_empty(&self) -> bool
        ensures { IsTrue result ↔ (self.now.live ≡ []) }
    {
        self.words.is_empty()
    }

    /// The live word at a place of the list, from 0.
    pub fn get(&self, place: usize) -> &Word
        requires { place < length self.now.live }
        ensures { slice_get self.now.live place ≡ Some result.now }
    {
        &self.words[place]
    }

    /// The terminals of the grammar, in order of number.
    pub fn terminals(&self) -> &Symbols
        ensures { result.now ≡ self.now.terminals }
    {
        &self.terminals
    }

    /// The forms of the live word with the number.
    pub fn word(&self, id: WordId) -> Option<&Forms>
        ensures forms { option_copied result ≡ forms_of self.now.live id }
        ensures complete { IfSome result (λ forms. IsComplete forms.now) }
    {
        match self.place_of(id) {
            Some(place) => Some(&self.words[place].forms),
            None => None,
        }
    }

    // Where the live word with the number stands.
    fn place_of(&self, id: WordId) -> Option<usize>
        ensures place { MatchOption result (forms_of self.now.live id ≡ None) (IsPlaceOf self.now.live id) }
        ensures lives { is_some result ≡ is_some (forms_of self.now.live id) }
    {
        self.words
            .binary_search_by_key(&id.0, |word| word.id.0)
            .ok()
    }

    /// The word that has the text as a form.
    pub fn find(&self, form: &str) -> Option<WordId>
        ensures owner { result ≡ owner self.now.live form.now }
        ensures lives { IfSome result (λ id. IsSome (forms_of self.now.live id)) }
        ensures lexicon { IsLexicon self.now }
    {
        self.index.get(form).copied()
    }

    /// What the token is to a grammar: for each form of a live word that it is, the preterminal of the word's kind with
    /// the values of its features. There are at most three.
    pub fn readings(&self, form: &str) -> Readings
        ensures { result ≡ readings_of self.now.live form.now }
    {
        let Some(id) = self.find(form) else {
            return Readings::none();
        };
        match self.place_of(id) {
            Some(place) => readings_of_word(&self.words[place], form),
            None => Readings::none(),
        }
    }

    /// Adds a word under the next number. Refused are, in this order, a form of another live word, a form that the
    /// grammar has, and the limits. The forms are copied.
    pub fn add(&mut self, forms: &Forms) -> Result<WordId, LexFault>
        requires { IsComplete forms.now }
        ensures number { IfOk result (λ id. id.0 ≡ self.old.last + 1) }
        ensures added { OnOk result (self.new ≡ with_word self.old forms.now) }
        ensures free { OnOk result (add_refusal self.old forms.now ≡ None) }
        ensures refused { IfErr result (IsRefusal (add_refusal self.old forms.now)) }
        ensures unchanged { OnErr result (self.new ≡ self.old) }
    {
        self.refuse_new(forms)?;
        self.refuse_full()?;
        let id = WordId(self.last + 1);
        let keys = keys_of(*self.words.allocator(), &forms.texts)?;
        let forms = forms.copy()?;
        self.words.reserve(1)?;
        make_room(&mut self.index, keys.len())?;
        enter(&mut self.index, keys, id);
        self.words.push_reserved(Word { id, forms });
        self.last = id.0;
        Ok(id)
    }

    /// Gives a word other forms of its kind. Refused are, in this order, a number that no live word has, a form of
    /// another live word, and a form that the grammar has. The forms are copied.
    pub fn reword(&mut self, id: WordId, forms: &Forms) -> Result<(), LexFault>
        requires complete { IsComplete forms.now }
        requires kind { (old : Forms) → forms_of self.old.live id ≡ Some old → forms.now.kind ≡ old.kind }
        ensures reworded { OnOk result (self.new ≡ with_forms self.old id forms.now) }
        ensures free { OnOk result (reword_refusal self.old id forms.now ≡ None) }
        ensures refused { IfErr result (IsRefusal (reword_refusal self.old id forms.now)) }
        ensures unchanged { OnErr result (self.new ≡ self.old) }
    {
        let Some(place) = self.place_of(id) else {
            return Err(LexFault::NoWord(id));
        };
        self.refuse(id, forms)?;
        let keys = keys_of(*self.words.allocator(), &forms.texts)?;
        let forms = forms.copy()?;
        make_room(&mut self.index, keys.len())?;
        let word = &mut self.words[place];
        let old = mem::replace(&mut word.forms, forms);
        forget(&mut self.index, &old.texts);
        enter(&mut self.index, keys, id);
        Ok(())
    }

    /// Takes a word out. Refused is a number that no live word has.
    pub fn remove(&mut self, id: WordId) -> Result<(), LexFault>
        ensures removed { OnOk result (self.new ≡ without_word self.old id) }
        ensures lived { OnOk result (IsSome (forms_of self.old.live id)) }
        ensures refused { IfErr result (λ fault. (fault ≡ LexFault.NoWord id) × (forms_of self.old.live id ≡ None)) }
        ensures unchanged { OnErr result (self.new ≡ self.old) }
    {
        let Some(place) = self.place_of(id) else {
            return Err(LexFault::NoWord(id));
        };
        let word = self.words.remove(place);
        forget(&mut self.index, &word.forms.texts);
        Ok(())
    }

    /// Stands the words beside the terminals of another grammar. Refused is the first form, by number of its word and then in
    /// the order of the word's forms, that the grammar has. The terminals are copied.
    pub fn reground(&mut self, grammar: &Grammar) -> Result<(), LexFault>
        ensures regrounded { OnOk result (self.new ≡ with_terminals self.old grammar.now.terminals) }
        ensures free { OnOk result (reground_refusal self.old.live grammar.now.terminals ≡ None) }
        ensures refused { IfErr result (IsRefusal (reground_refusal self.old.live grammar.now.terminals)) }
        ensures unchanged { OnErr result (self.new ≡ self.old) }
    {
        refuse_words(&self.words, grammar.terminals())?;
        self.terminals = grammar.terminals().copy()?;
        Ok(())
    }

    // Refuses forms for a new word, of which one is a form of a live word, or is reserved.
    fn refuse_new(&self, forms: &Forms) -> Result<(), LexFault>
        ensures free { OnOk result (forms_refusal self.now.live self.now.terminals forms.now ≡ None) }
        ensures refused { IfErr result (IsRefusal (forms_refusal self.now.live self.now.terminals forms.now)) }
    {
        let _ = &self.words;
        self.refuse(WordId(0), forms)
    }

    // Refuses forms of which one is a form of a live word other than the one with the number, or is reserved.
    fn refuse(&self, id: WordId, forms: &Forms) -> Result<(), LexFault>
        ensures free { OnOk result (forms_refusal (others self.now.live id) self.now.terminals forms.now ≡ None) }
        ensures refused { IfErr result (IsRefusal (forms_refusal (others self.now.live id) self.now.terminals forms.now)) }
    {
        self.refuse_taken(id, &forms.texts)?;
        refuse_reserved(&self.terminals, &forms.texts)
    }

    // Refuses texts of which one is a form of a live word other than the one with the number.
    fn refuse_taken(&self, id: WordId, texts: &Texts) -> Result<(), LexFault>
        ensures free { OnOk result (first_taken (others self.now.live id) texts.now ≡ None) }
        ensures taken { IfErr result (IsRefusal (first_taken (others self.now.live id) texts.now)) }
    {
        for text in texts.as_slice() {
            if let Some(owner) = self.find_other(id, text.as_str()) {
                return Err(LexFault::Taken {
                    text: text.copy()?,
                    owner,
                });
            }
        }
        Ok(())
    }

    // The word that has the text as a form, but for the one with the number.
    fn find_other(&self, id: WordId, form: &str) -> Option<WordId>
        ensures { result ≡ owner (others self.now.live id) form.now }
    {
        let owner = self.find(form)?;
        if owner == id { None } else { Some(owner) }
    }

    // Refuses one more word at the limits.
    fn refuse_full(&self) -> Result<(), LexFault>
        ensures room { OnOk result (fullness self.now ≡ None) }
        ensures full { IfErr result (λ fault. fullness self.now ≡ Some fault) }
    {
        if self.words.len() == MOST_WORDS {
            return Err(LexFault::Full(LexLimit::Words));
        }
        if self.last == LAST_NUMBER {
            return Err(LexFault::Full(LexLimit::Numbers));
        }
        Ok(())
    }
}

// Refuses words of which a form is one of the terminals, or one of them raised.
fn refuse_words(words: &[Word], terminals: &Symbols) -> Result<(), LexFault>
    ensures free { OnOk result (reground_refusal words.now terminals.now ≡ None) }
    ensures reserved { IfErr result (IsRefusal (reground_refusal words.now terminals.now)) }
{
    for word in words {
        refuse_reserved(terminals, &word.forms.texts)?;
    }
    Ok(())
}

// Refuses texts of which one is one of the terminals, or one of them raised.
fn refuse_reserved(terminals: &Symbols, texts: &Texts) -> Result<(), LexFault>
    ensures free { OnOk result (first_reserved terminals.now texts.now ≡ None) }
    ensures reserved { IfErr result (IsRefusal (first_reserved terminals.now texts.now)) }
{
    for text in texts.as_slice() {
        if is_reserved(terminals, text.as_str().as_bytes()) {
            return Err(LexFault::Reserved { text: text.copy()? });
        }
    }
    Ok(())
}

impl Copied for Lexicon {
    fn copy(&self) -> Result<Self, Memory> {
        Ok(Lexicon {
            words: List::copied(*self.words.allocator(), &self.words)?.into_vec(),
            terminals: self.terminals.copy()?,
            last: self.last,
            index: self.index.clone()?,
        })
    }
}

impl Spelled for Lexicon {
    ghost use Rattle.lexicon.specs.Words.{canonical_form_of};

    ghost canonical_form = { λ lexicon id. canonical_form_of lexicon.live id };

    fn spelled(&self, id: WordId) -> Option<&str> {
        match self.word(id) {
            Some(forms) => Some(forms.canonical().as_str()),
            None => None,
        }
    }
}
