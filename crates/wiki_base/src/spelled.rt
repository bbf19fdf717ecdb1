// The canonical forms of words, for calls that print and stand below the lexicon.
ghost use Rattle.std.specs.Prelude.{◌≡◌, List, ℕ, Option};
ghost use Rattle.std.specs.Option.{option_copied};

use crate::numbers::WordId;

/// What tells the canonical form of each word.
pub trait Spelled {
    ghost use Rattle.wiki_base.specs.declared.numbers.WordId.{WordId};

    /// The canonical form of a live word, and none for another number.
    ghost canonical_form: { Self → WordId → Option (List ℕ) };

    /// The canonical form of a live word, and None exactly for another number. It takes no memory.
    fn spelled(&self, id: WordId) -> Option<&str>
        ensures { option_copied result ≡ canonical_form self.now id };
}
