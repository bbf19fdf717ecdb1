// Lists of plain values, of lists and of structs.
ghost use Rattle.std.specs.Prelude.{◌≡◌, ◌<◌, ◌^◌, ◌++◌, [], ◌∷◌, IfOk, OnOk, OnErr, sum_by, length, map};

use lists::{Copied, List, Memory};
use std::alloc::Global;

/// A word with the numbers of its sentences.
#[derive(Drop)]
pub struct Entry {
    pub word: u16,
    pub sentences: List<u16>,
}

impl Copied for Entry {
    fn copy(&self) -> Result<Entry, Memory> {
        Ok(Entry {
            word: self.word,
            sentences: self.sentences.copy()?,
        })
    }
}

/// The entries of an index, in order.
pub type Entries = List<Entry>;

/// Adds the entry of a word with no sentence.
pub fn add_word(alloc: Global, entries: &mut Entries, word: u16) -> Result<(), Memory>
    ensures ok { OnOk result (entries.new ≡ entries.old ++ record { word = word; sentences = [] } ∷ []) }
    ensures err { OnErr result (entries.new ≡ entries.old) }
{
    entries.push(Entry {
        word,
        sentences: List::new(alloc),
    })
}

/// How many sentences the entries name.
pub fn sentence_count(entries: &Entries) -> usize
    requires { sum_by (λ e. length e.sentences) entries.now < 2 ^ 64 }
    ensures { result ≡ sum_by (λ e. length e.sentences) entries.now }
{
    let mut count = 0;
    for entry in entries.as_slice() {
        count += entry.sentences.len();
    }
    count
}

/// The words of the entries, in order.
pub fn words(alloc: Global, entries: &Entries) -> Result<List<u16>, Memory>
    ensures { IfOk result (λ words. words ≡ map (λ e. e.word) entries.now) }
{
    let mut words = List::new(alloc);
    for entry in entries.as_slice() {
        words.push(entry.word)?;
    }
    Ok(words)
}

/// A copy of all entries, whose proof is that of `copy` of a list.
pub fn copy_entries(entries: &Entries) -> Result<Entries, Memory>
    ensures { IfOk result (λ copied. copied ≡ entries.now) }
{
    entries.copy()
}
