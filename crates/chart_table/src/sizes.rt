// How large a table grows.
use crate::asks::Ask;
use crate::choices::plans_of;
use crate::rows::Rows;
use crate::scene::Scene;
use crate::sentences::DEEPEST;
use crate::states::Aim;
use crate::table::{Row, row_of};
use codeco_checked::FIRST_PLAIN;
use derivation_trees::Setting;
use lists::List;
use scopes::Access;
use std::alloc::Global;
use std::cell::Cell;
use wiki_base::Memory;

/// How many rows a table has, how many ends and cut-off phrases they have together, and how many states were made to fill
/// them. No clause speaks of these numbers: they are there for measurements and tests of how tables grow.
#[derive(Drop)]
pub struct Size {
    pub rows: usize,
    pub ends: usize,
    pub cuts: usize,
    pub states: usize,
}

/// The size of the table by which `may_follow` answers.
pub fn table_size(
    alloc: Global,
    setting: &Setting<'_>,
    halt: usize,
    asks: &[Ask],
) -> Result<Size, Memory> {
    let made = Cell::new(0usize);
    let aim = Aim {
        halt,
        asks,
        made: &made,
    };
    let plans = plans_of(alloc, setting.grammar)?;
    let mut rows = Rows::new(alloc);
    let known = List::new(alloc);
    let list = Access::empty(alloc);
    let scene = Scene {
        alloc,
        setting,
        aim: &aim,
        plans: plans.as_slice(),
        depth: DEEPEST,
    };
    row_of(&scene, &mut rows, FIRST_PLAIN, known, 0, list)?;
    Ok(size_of(rows.as_slice(), made.get()))
}

fn size_of(rows: &[Row], states: usize) -> Size {
    let mut ends = 0usize;
    let mut cuts = 0usize;
    for row in rows {
        ends = ends.saturating_add(row.ends.len());
        cuts = cuts.saturating_add(row.cuts.len());
    }
    Size {
        rows: rows.len(),
        ends,
        cuts,
        states,
    }
}
