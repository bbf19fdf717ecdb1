// The first fault that is told before numbers are given.
ghost use Rattle.std.specs.Prelude.{◌≡◌, true, IfOk};
ghost use Rattle.std.specs.List.{list_all};
ghost use Rattle.std.specs.Option.{IfSome, IfNone};
ghost use Rattle.codeco_text.specs.Notation.{item_fits};
ghost use Rattle.codeco_checked.specs.FirstFault.{IsFirst};
ghost use Rattle.codeco_numbering.specs.Early.{HasNoEarlyFault};
ghost use Rattle.codeco_numbering.specs.Numbered.{numbered_of};
ghost use Rattle.codeco_early_faults.specs.Early.{is_too_large_place, FindsFirst};

use crate::categories::has_broad_category;
use crate::declarations::{has_double_declaration, has_large_declarations};
use crate::rules::{first_large_rule, first_undeclared_rule};
use codeco_checked::GrammarFault;
use codeco_text::WrittenItems;
use std::alloc::Global;
use wiki_base::Memory;

/// The place of the first limit that is passed.
fn first_large_place(alloc: Global, items: &WrittenItems) -> Result<Option<u32>, Memory>
    ensures { IfOk result (FindsFirst (is_too_large_place items.now)) }
{
    if has_large_declarations(alloc, items)? {
        return Ok(Some(0));
    }
    if has_broad_category(alloc, items)? {
        return Ok(Some(1));
    }
    first_large_rule(alloc, items)
}

/// The first of the faults that are told before numbers are given: a limit that is passed, a feature without a
/// declaration, or a double declaration. None where none of them holds.
pub fn first_early_fault(
    alloc: Global,
    items: &WrittenItems,
) -> Result<Option<GrammarFault>, Memory>
    requires { list_all item_fits items.now ≡ true }
    ensures first { IfOk result (λ found. IfSome found (λ fault. IsFirst (numbered_of items.now) fault)) }
    ensures none { IfOk result (λ found. IfNone found (HasNoEarlyFault items.now)) }
{
    if let Some(place) = first_large_place(alloc, items)? {
        return Ok(Some(GrammarFault::TooLarge(place)));
    }
    if let Some(rule) = first_undeclared_rule(alloc, items)? {
        return Ok(Some(GrammarFault::Undeclared(rule)));
    }
    if has_double_declaration(alloc, items)? {
        return Ok(Some(GrammarFault::BadValue(0)));
    }
    Ok(None)
}
