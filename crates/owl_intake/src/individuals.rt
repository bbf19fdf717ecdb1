// The individuals of a file.
ghost use Rattle.std.specs.Prelude.{◌≡◌, ◌+◌, IfOk};
ghost use Rattle.owl_intake.specs.Checked.{is_individual, individuals};

use logic_terms::Names;
use owl_reader::{Entities, EntityKind};
use std::alloc::Global;
use wiki_base::{Memory, WordId};

/// The words of the individuals among entities, in order.
pub fn individuals(alloc: Global, entities: &Entities) -> Result<Names, Memory>
    ensures { IfOk result (λ names. names ≡ individuals entities.now) }
{
    let mut names = Names::new(alloc);
    for place in 0..entities.len() {
        let entity = entities.get(place);
        if is_individual(entity.kind) {
            names.push(word_at(place)?)?;
        }
    }
    Ok(names)
}

fn is_individual(kind: EntityKind) -> bool
    ensures { result ≡ is_individual kind }
{
    matches!(kind, EntityKind::Individual)
}

// The word of the entity at a place. A list with more places than words would not fit in memory.
fn word_at(place: usize) -> Result<WordId, Memory>
    ensures { IfOk result (λ word. word ≡ record { 0 = place + 1 }) }
{
    match u32::try_from(place) {
        Ok(before) => match before.checked_add(1) {
            Some(number) => Ok(WordId(number)),
            None => Err(Memory),
        },
        Err(_) => Err(Memory),
    }
}
