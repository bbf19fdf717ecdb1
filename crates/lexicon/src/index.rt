// The table by which a lexicon finds the word that has a form.
ghost use Rattle.std.specs.Prelude.{◌≡◌, ℕ, ◌≤◌, List, length, map, All, IfOk, OnOk, None, Some, if◌then◌else◌, string_bytes};
ghost use Rattle.std.specs.HashMap.{get_by_text, spare};
ghost use Rattle.wiki_base.specs.Text.{IsText};
ghost use Rattle.lexicon.specs.Words.{is_among};

use crate::kinds::Texts;
use std::alloc::{AllocError, Global};
use std::collections::HashMap;
use wiki_base::WordId;

// From forms to the numbers of the words that have them.
pub(crate) type Index = HashMap<String, WordId>;

// The texts as keys.
pub(crate) fn keys_of(alloc: Global, texts: &Texts) -> Result<Vec<String>, AllocError>
    ensures keys { IfOk result (λ keys. map string_bytes keys.items ≡ texts.now) }
    ensures texts { OnOk result (All IsText texts.now) }
{
    let mut keys = Vec::with_capacity(alloc, texts.len())?;
    for text in texts.as_slice() {
        keys.push(String::from_str(alloc, text.as_str())?)?;
    }
    Ok(keys)
}

// Makes room for so many more keys.
pub(crate) fn make_room(index: &mut Index, count: usize) -> Result<(), AllocError>
    ensures same { (text : List ℕ) → get_by_text index.new text ≡ get_by_text index.old text }
    ensures room { OnOk result (count ≤ spare index.new) }
{
    index.reserve(count)
}

// Enters the word at each of the keys, for which there is room.
pub(crate) fn enter(index: &mut Index, mut keys: Vec<String>, id: WordId)
    requires { length keys.items ≤ spare index.old }
    ensures { (text : List ℕ) → get_by_text index.new text
        ≡ (if is_among (map string_bytes keys.items) text then Some id else get_by_text index.old text) }
{
    while let Some(key) = keys.pop() {
        let entered: Result<_, _> = index.insert(key, id);
        entered.unwrap();
    }
}

// Takes the texts out.
pub(crate) fn forget(index: &mut Index, texts: &Texts)
    ensures found { (text : List ℕ) → get_by_text index.new text
        ≡ (if is_among texts.now text then None else get_by_text index.old text) }
    ensures room { spare index.old ≤ spare index.new }
{
    for text in texts.as_slice() {
        index.remove(text.as_str());
    }
}
