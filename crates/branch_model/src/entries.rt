// Words with lists, in order of the words.
ghost use Rattle.std.specs.Prelude.{◌≡◌, OnOk};
ghost use Rattle.owl_eval.specs.Given.{lists_in};
ghost use Rattle.branch_model.specs.Entries.{placed};

use std::alloc::Global;
use wiki_base::{Memory, WordId};

// Adds an item to a word's list.
pub(crate) fn put<T: Drop>(
    alloc: Global,
    entries: &mut Vec<(WordId, Vec<T>)>,
    word: WordId,
    item: T,
) -> Result<(), Memory>
    ensures { OnOk result (lists_in entries.new.items ≡ placed word item (lists_in entries.old.items)) }
{
    let mut place = 0;
    while place < entries.len() && entries[place].0.0 < word.0 {
        place += 1;
    }
    if place < entries.len() && entries[place].0.0 == word.0 {
        let entry = &mut entries[place];
        entry.1.push(item)?;
        return Ok(());
    }
    let mut items = Vec::new(alloc);
    items.push(item)?;
    entries.insert(place, (word, items))?;
    Ok(())
}
