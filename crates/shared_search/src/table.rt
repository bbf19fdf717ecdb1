// Which roles are below which, as a table.
use crate::terms::Way;
use logic_terms::Knowledge;
use std::alloc::Global;
use wiki_base::Memory;

// How many roles a table has at most.
const MOST_ROLES: usize = 1_024;

// The rows of roles, and their cells: whether the role of the row is below that of the column.
#[derive(Drop)]
pub(crate) struct Table {
    // The number of each word of the hierarchy, by the word; 0 for others.
    numbers: Vec<usize>,
    count: usize,
    cells: Vec<bool>,
}

impl Table {
    pub(crate) fn new(alloc: Global, k: &Knowledge) -> Result<Table, Memory> {
        let mut table = Table {
            numbers: Vec::new(alloc),
            count: 1,
            cells: Vec::new(alloc),
        };
        for pair in k.hierarchy() {
            table.take(Way::of(pair.0))?;
            table.take(Way::of(pair.1))?;
        }
        if table.width() > MOST_ROLES {
            return Ok(table);
        }
        for _ in 0..table.width().saturating_mul(table.width()) {
            table.cells.push(false)?;
        }
        for pair in k.hierarchy() {
            let place = table.place(Way::of(pair.0), Way::of(pair.1));
            if let Some(cell) = table.cells.get_mut(place) {
                *cell = true;
            }
        }
        Ok(table)
    }

    // Numbers a word, if it has no number.
    fn take(&mut self, way: Way) -> Result<(), Memory> {
        let word = way.word as usize;
        for _ in self.numbers.len()..=word {
            self.numbers.push(0)?;
        }
        if let Some(number) = self.numbers.get_mut(word) {
            if *number == 0 {
                *number = self.count;
                self.count = self.count.saturating_add(1);
            }
        }
        Ok(())
    }

    fn width(&self) -> usize {
        self.count.saturating_mul(2)
    }

    fn row(&self, way: Way) -> usize {
        let number = self.numbers.get(way.word as usize).copied().unwrap_or(0);
        number
            .saturating_mul(2)
            .saturating_add(way.inverted as usize)
    }

    fn place(&self, below: Way, above: Way) -> usize {
        let row = self.row(below).saturating_mul(self.width());
        row.saturating_add(self.row(above))
    }

    // Whether a role of the hierarchy is below another one; none where there are too many for a table.
    pub(crate) fn has(&self, below: Way, above: Way) -> Option<bool> {
        self.cells.get(self.place(below, above)).copied()
    }
}
