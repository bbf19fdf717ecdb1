// The rows of a table, found by their places.
ghost use Rattle.std.specs.Prelude.{◌≡◌, ◌<◌, ◌∷◌, [], ◌++◌, IfOk, OnOk, Some, length, remove, slice_get};

use crate::table::Row;
use lists::List;
use std::alloc::Global;
use std::marker::Model;
use wiki_base::Memory;

/// The rows of a table, in the order in which they were made. Seen as their list. For each place it is kept which row there is
/// the newest; no clause speaks of that.
#[derive(Drop)]
pub struct Rows {
    all: List<Row>,
    newest: List<usize>,
}

impl Model for Rows {
    ghost use Rattle.std.specs.Prelude.{List};
    ghost use Rattle.chart_table.specs.declared.table.Row.{Row};

    ghost Value = { List Row };

    ghost view = { λ r. r.all };
}

impl Rows {
    /// No rows, which takes no memory.
    pub fn new(alloc: Global) -> Rows
        ensures { result ≡ [] }
    {
        Rows {
            all: List::new(alloc),
            newest: List::new(alloc),
        }
    }

    /// All of them, in order.
    pub fn as_slice(&self) -> &[Row]
        ensures { result.now ≡ self.now }
    {
        self.all.as_slice()
    }

    // One more than the number of the newest row at the place, or 0 where there is none.
    pub(crate) fn newest_at(&self, place: u16) -> usize {
        match self.newest.as_slice().get(place as usize) {
            None => 0,
            Some(number) => *number,
        }
    }

    // Adds the row, and gives its number.
    pub(crate) fn push(&mut self, row: Row) -> Result<usize, Memory>
        ensures rows { OnOk result (self.new ≡ self.old ++ row ∷ []) }
        ensures number { IfOk result (λ number. number ≡ length self.old) }
    {
        let number = self.all.len();
        note(&mut self.newest, row.place, number)?;
        self.all.push(row)?;
        Ok(number)
    }

    // Takes the row out.
    pub(crate) fn remove(&mut self, number: usize) -> Row
        requires { number < length self.old }
        ensures item { slice_get self.old number ≡ Some result }
        ensures rest { self.new ≡ remove self.old number }
    {
        self.all.remove(number)
    }
}

// Keeps that the row with the number is the newest at the place.
fn note(newest: &mut List<usize>, place: u16, number: usize) -> Result<(), Memory> {
    let place = place as usize;
    while newest.len() <= place {
        newest.push(0)?;
    }
    newest.set(place, number.saturating_add(1));
    Ok(())
}
