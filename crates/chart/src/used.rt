// The words that have a form among tokens.
ghost use Rattle.std.specs.Prelude.{◌≡◌, ◌==◌, ◌&&◌, OnOk, IfOk};
ghost use Rattle.codeco_terms.specs.declared.values.Value.TheVariants.{Word as TheWord};
ghost use Rattle.codeco_terms.specs.Values.{same_value};
ghost use Rattle.wiki_base.specs.declared.numbers.WordId.{WordId as Id};
ghost use Rattle.scopes.specs.Resolution as resolution;
ghost use Rattle.chart.specs.Offers as offers;

use codeco_terms::{Ground, Value};
use lexicon::Readings;
use lists::List;
use std::alloc::Global;
use std::marker::Model;
use wiki_base::{Memory, WordId};

/// The feature of preterminals that holds the word.
const WORD_FEATURE: u16 = 3;

/// The words that have a form among tokens, each once. Seen as the readings of the tokens, which no call reads again.
#[derive(Drop)]
pub(crate) struct Used<'a> {
    readings: &'a [Readings],
    ids: List<WordId>,
}

impl<'a> Model for Used<'a> {
    ghost use Rattle.std.specs.Prelude.{List};
    ghost use Rattle.codeco_terms.specs.declared.categories.Ground.{Ground as OneGround};
    ghost use Rattle.chart.specs.Offers as offers;

    ghost Value = { List (List OneGround) };

    ghost view = { λ u. u.readings.now };

    ghost invariant = { λ u. offers.AreUsed u.readings.now u.ids };
}

impl<'a> Used<'a> {
    // The words that have a form among the tokens with these readings.
    pub(crate) fn of(alloc: Global, readings: &'a [Readings]) -> Result<Used<'a>, Memory>
        ensures { IfOk result (λ used. used ≡ readings.now) }
    {
        let ids = used_ids(alloc, readings)?;
        Ok(Used { readings, ids })
    }

    // Whether the word is one of them.
    pub(crate) fn has(&self, id: WordId) -> bool
        ensures { result ≡ offers.is_used self.now id }
    {
        is_among(self.ids.as_slice(), id)
    }
}

fn is_among(ids: &[WordId], id: WordId) -> bool
    ensures { result ≡ offers.has_id ids.now id }
{
    ids.iter().any(|other| other.0 == id.0)
}

// Adds the word where it isn't there yet.
fn add_id(id: WordId, ids: &mut List<WordId>) -> Result<(), Memory>
    ensures { OnOk result (offers.Gains ids.old ids.new (λ other. id.0 == other.0)) }
{
    if !is_among(ids.as_slice(), id) {
        ids.push(id)?;
    }
    Ok(())
}

// Adds the word that the value is, where the feature is that of words.
fn add_value(feature: u16, value: Value, ids: &mut List<WordId>) -> Result<(), Memory>
    ensures { OnOk result (offers.Gains ids.old ids.new (λ other. (feature == 3) && same_value value (TheWord other))) }
{
    match value {
        Value::Word(id) if feature == WORD_FEATURE => add_id(id, ids),
        _ => Ok(()),
    }
}

fn add_values(vals: &[(u16, Value)], ids: &mut List<WordId>) -> Result<(), Memory>
    ensures { OnOk result (offers.Gains ids.old ids.new (λ other. resolution.has_value vals.now (3, TheWord other))) }
{
    for (feature, value) in vals {
        add_value(*feature, *value, ids)?;
    }
    Ok(())
}

fn add_readings(readings: &[Ground], ids: &mut List<WordId>) -> Result<(), Memory>
    ensures { OnOk result (offers.Gains ids.old ids.new (λ other. offers.has_in readings.now (TheWord other))) }
{
    for reading in readings {
        add_values(reading.vals.as_slice(), ids)?;
    }
    Ok(())
}

// The words that have a form among the tokens with these readings, each once.
fn used_ids(alloc: Global, readings: &[Readings]) -> Result<List<WordId>, Memory>
    ensures { IfOk result (λ ids. offers.AreUsed readings.now ids) }
{
    let mut ids = List::new(alloc);
    for one in readings {
        add_readings(one.as_slice(), &mut ids)?;
    }
    Ok(ids)
}
