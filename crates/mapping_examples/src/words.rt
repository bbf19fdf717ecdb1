// The few words of the examples.
use wiki_base::{Spelled, WordId};

pub const DOG: WordId = WordId(1);

pub const CAT: WordId = WordId(2);

pub const MAN: WordId = WordId(3);

pub const OWN: WordId = WordId(4);

pub const SEE: WordId = WordId(5);

pub const MARY: WordId = WordId(6);

pub const BILL: WordId = WordId(7);

/// Seven words, and what they are written as.
#[derive(Drop)]
pub struct Few;

impl Spelled for Few {
    ghost use Rattle.mapping_examples.specs.Few.{few_form};

    ghost canonical_form = { λ _ word. few_form word };

    fn spelled(&self, id: WordId) -> Option<&str> {
        let number = id.0;
        if number == 1 {
            Some("dog")
        } else if number == 2 {
            Some("cat")
        } else if number == 3 {
            Some("man")
        } else if number == 4 {
            Some("own")
        } else if number == 5 {
            Some("see")
        } else if number == 6 {
            Some("Mary")
        } else if number == 7 {
            Some("Bill")
        } else {
            None
        }
    }
}
