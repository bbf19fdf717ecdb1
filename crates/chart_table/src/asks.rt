// What a cut-off phrase may be asked for as its next element.

use codeco_terms::Ground;

/// What may be asked of a phrase that is cut off: nothing; that its next element is the terminal with this number; or that it
/// is a preterminal with which this reading of a token agrees.
#[derive(Drop)]
pub enum Ask {
    Any,
    Terminal(u16),
    Reading(Ground),
}
