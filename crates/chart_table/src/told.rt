// Heads of a rule by what categories that are cut off tell of them, each kept while a list of such categories is gone through.
ghost use Rattle.std.specs.Prelude.{◌≡◌, ◌<◌, ◌∷◌, [], ◌++◌, All, IfOk, IfSome, OnOk, length};
ghost use Rattle.chart_table.specs.Choices as choosing;
ghost use Rattle.chart_table.specs.Cuts as cutting;
ghost use Rattle.chart_table.specs.declared.states.Told.{Told as OneTold};

use crate::branches::meeting;
use crate::cuts::{has_cut, push_cut, push_heads};
use crate::sameness::{copy_values, same_values};
use crate::scene::Trial;
use crate::states::{Cut, Told};
use codeco_terms::{Category, Value};
use lists::List;
use std::alloc::Global;
use wiki_base::Memory;

// The number of the one for the values, if it is there.
fn find(told: &[Told], values: &[(u16, Value)]) -> Option<usize>
    ensures { IfSome result (λ number. cutting.IsTelling told.now number values.now) }
{
    for (number, one) in told.iter().enumerate() {
        if same_values(one.values.as_slice(), values) {
            return Some(number);
        }
    }
    None
}

// The heads that the values tell.
fn told_by(
    trial: &Trial<'_>,
    category: &Category,
    bound: &[(u8, Value)],
    values: &[(u16, Value)],
) -> Result<Told, Memory>
    requires { choosing.IsPlan trial.now.setting.now trial.now.rule.now trial.now.plan.now }
    ensures heads { IfOk result (cutting.IsTold trial.now.setting.now trial.now.rule.now category.now bound.now) }
    ensures values { IfOk result (λ told. told.values ≡ values.now) }
{
    let alloc = trial.alloc;
    let bounds = meeting(alloc, values, category.feats.as_slice(), bound)?;
    let mut heads = List::new(alloc);
    push_heads(trial, 0, bounds.as_slice(), &mut heads)?;
    Ok(Told {
        values: copy_values(alloc, values)?,
        heads,
    })
}

fn push_told(told: &mut List<Told>, one: Told) -> Result<usize, Memory>
    ensures told { OnOk result (told.new ≡ told.old ++ one ∷ []) }
    ensures number { IfOk result (λ number. number ≡ length told.old) }
{
    let number = told.len();
    told.push(one)?;
    Ok(number)
}

// The number of the one for the values, which is made where it isn't there yet.
fn telling(
    trial: &Trial<'_>,
    category: &Category,
    bound: &[(u8, Value)],
    values: &[(u16, Value)],
    told: &mut List<Told>,
) -> Result<usize, Memory>
    requires plan { choosing.IsPlan trial.now.setting.now trial.now.rule.now trial.now.plan.now }
    requires told { All (cutting.IsTold trial.now.setting.now trial.now.rule.now category.now bound.now) told.old }
    ensures told { OnOk result (All (cutting.IsTold trial.now.setting.now trial.now.rule.now category.now bound.now) told.new) }
    ensures number { IfOk result (λ number. cutting.IsTelling told.new number values.now) }
{
    if let Some(number) = find(told.as_slice(), values) {
        return Ok(number);
    }
    let one = told_by(trial, category, bound, values)?;
    let number = push_told(told, one)?;
    Ok(number)
}

// Adds the head for the ask with the number, where it isn't there yet.
fn push_copy(alloc: Global, number: usize, head: &Cut, cuts: &mut List<Cut>) -> Result<(), Memory>
    ensures { OnOk result (cutting.HasCopies number (head.now ∷ []) cuts.old cuts.new) }
{
    if has_cut(cuts.as_slice(), number, head.values.as_slice()) {
        return Ok(());
    }
    let values = copy_values(alloc, head.values.as_slice())?;
    push_cut(number, values, cuts)?;
    Ok(())
}

// Adds the heads for the ask with the number, those that aren't there yet.
fn push_copies(
    alloc: Global,
    number: usize,
    heads: &[Cut],
    cuts: &mut List<Cut>,
) -> Result<(), Memory>
    ensures { OnOk result (cutting.HasCopies number heads.now cuts.old cuts.new) }
{
    for head in heads {
        push_copy(alloc, number, head, cuts)?;
    }
    Ok(())
}

// Adds the phrases of the rule whose next element, a category, is cut off so.
fn push_one_within(
    trial: &Trial<'_>,
    category: &Category,
    bound: &[(u8, Value)],
    cut: &Cut,
    told: &mut List<Told>,
    cuts: &mut List<Cut>,
) -> Result<(), Memory>
    requires plan { choosing.IsPlan trial.now.setting.now trial.now.rule.now trial.now.plan.now }
    requires told { All (cutting.IsTold trial.now.setting.now trial.now.rule.now category.now bound.now) told.old }
    ensures told { OnOk result (All (cutting.IsTold trial.now.setting.now trial.now.rule.now category.now bound.now) told.new) }
    ensures cuts { OnOk result (cutting.HasHeads trial.now.setting.now trial.now.rule.now
        (cutting.IsOf cut.now.ask (cutting.within_binds category.now bound.now cut.now)) cuts.old cuts.new) }
{
    let number = telling(trial, category, bound, cut.values.as_slice(), told)?;
    push_copies(
        trial.alloc,
        cut.ask,
        told.get(number).heads.as_slice(),
        cuts,
    )?;
    Ok(())
}

// Adds the phrases of the rule whose next element, a category, is cut off in one of these ways. Many ask for different things
// with the same values: what these tell is found once.
pub(crate) fn push_many_within(
    trial: &Trial<'_>,
    category: &Category,
    bound: &[(u8, Value)],
    within: &[Cut],
    cuts: &mut List<Cut>,
) -> Result<(), Memory>
    requires { choosing.IsPlan trial.now.setting.now trial.now.rule.now trial.now.plan.now }
    ensures { OnOk result (cutting.HasHeads trial.now.setting.now trial.now.rule.now
        (cutting.OneBefore within.now (cutting.MeetsCut category.now bound.now) (length within.now)) cuts.old cuts.new) }
{
    let mut told = List::new(trial.alloc);
    for cut in within {
        push_one_within(trial, category, bound, cut, &mut told, cuts)?;
    }
    Ok(())
}
