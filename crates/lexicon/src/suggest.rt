// The forms of a word from the texts that are given for it.
ghost use Rattle.std.specs.Prelude.{◌≡◌, [], ◌∷◌, length, None, IfOk, IfErr, OnOk};
ghost use Rattle.std.specs.Option.{option_or};
ghost use Rattle.lexicon.specs.Kinds.{IsComplete, form_count};
ghost use Rattle.lexicon.specs.Suggest.{with_s, with_d, form_texts, too_long, count_fault, form_fault, IsFormRefusal};
ghost use Rattle.lexicon.specs.declared.suggest.FormFault.TheVariants.{Memory as out_of_memory};

use crate::endings::{with_d, with_s};
use crate::kinds::{Forms, Kind, Texts};
use std::alloc::{AllocError, AllocFailed, Global};
use wiki_base::{Copied, Memory, Text};

/// Why the given texts are no forms of a word.
#[derive(Clone, Copy, Debug, PartialEq, Eq)]
pub enum FormFault {
    /// So many texts were given, at most 4,294,967,295 being told; the kind has another number of forms.
    Count(u32),
    /// A form that is suggested for the one text given has over 64 bytes.
    TooLong(u32),
    Memory,
}

impl From<AllocError> for FormFault {
    ghost from_gives = { λ _ fault. fault ≡ out_of_memory };

    fn from(_: AllocError) -> Self {
        FormFault::Memory
    }
}

impl<T: Drop> From<AllocFailed<T>> for FormFault {
    ghost from_gives = { λ _ fault. fault ≡ out_of_memory };

    fn from(_: AllocFailed<T>) -> Self {
        FormFault::Memory
    }
}

impl From<Memory> for FormFault {
    ghost from_gives = { λ _ fault. fault ≡ out_of_memory };

    fn from(_: Memory) -> Self {
        FormFault::Memory
    }
}

/// The forms of a word of a kind, from all of its texts, or for a noun from its singular and for a verb from its
/// infinitive; then the others are suggested by their spelling. The texts are copied.
pub fn forms(alloc: Global, kind: Kind, given: &[Text]) -> Result<Forms, FormFault>
    ensures forms { IfOk result (λ forms. forms ≡ record { kind = kind; texts = form_texts kind given.now }) }
    ensures complete { IfOk result IsComplete }
    ensures accepted { OnOk result (form_fault kind given.now ≡ None) }
    ensures refused { IfErr result (IsFormRefusal (form_fault kind given.now)) }
{
    match (kind, given) {
        (Kind::Noun, [singular]) => noun_forms(alloc, singular),
        (Kind::Verb, [infinitive]) => verb_forms(alloc, infinitive),
        _ => given_forms(alloc, kind, given),
    }
}

// The forms of a noun from its singular.
fn noun_forms(alloc: Global, singular: &Text) -> Result<Forms, FormFault>
    ensures forms { IfOk result (λ forms. forms ≡ record { kind = Kind.Noun; texts = singular.now ∷ with_s singular.now ∷ [] }) }
    ensures accepted { OnOk result (too_long (with_s singular.now) ≡ None) }
    ensures refused { IfErr result (IsFormRefusal (too_long (with_s singular.now))) }
{
    let plural = with_s(alloc, singular)?;
    let mut texts = Vec::with_capacity(alloc, 2)?;
    texts.push(singular.copy()?)?;
    texts.push(plural)?;
    Ok(Forms {
        kind: Kind::Noun,
        texts: Texts::from_vec(texts),
    })
}

// The forms of a verb from its infinitive.
fn verb_forms(alloc: Global, infinitive: &Text) -> Result<Forms, FormFault>
    ensures forms { IfOk result (λ forms. forms ≡ record { kind = Kind.Verb; texts = with_s infinitive.now ∷ infinitive.now ∷ with_d infinitive.now ∷ [] }) }
    ensures accepted { OnOk result (option_or (too_long (with_s infinitive.now)) (too_long (with_d infinitive.now)) ≡ None) }
    ensures refused { IfErr result (IsFormRefusal (option_or (too_long (with_s infinitive.now)) (too_long (with_d infinitive.now)))) }
{
    let third = with_s(alloc, infinitive)?;
    let participle = with_d(alloc, infinitive)?;
    let mut texts = Vec::with_capacity(alloc, 3)?;
    texts.push(third)?;
    texts.push(infinitive.copy()?)?;
    texts.push(participle)?;
    Ok(Forms {
        kind: Kind::Verb,
        texts: Texts::from_vec(texts),
    })
}

// The forms that are given, which are to be as many as the kind has.
fn given_forms(alloc: Global, kind: Kind, given: &[Text]) -> Result<Forms, FormFault>
    ensures forms { IfOk result (λ forms. forms ≡ record { kind = kind; texts = given.now }) }
    ensures accepted { OnOk result (length given.now ≡ form_count kind) }
    ensures refused { IfErr result (IsFormRefusal (count_fault kind given.now)) }
{
    if given.len() != kind.form_count() {
        return Err(FormFault::Count(given.len().min(u32::MAX as usize) as u32));
    }
    Ok(Forms {
        kind,
        texts: Texts::copied(alloc, given)?,
    })
}
