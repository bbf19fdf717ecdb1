// Whether elements may begin at a place, by the first of them that takes tokens.
ghost use Rattle.std.specs.Prelude.{◌≡◌, ◌==◌};
ghost use Rattle.std.specs.List.{list_any};
ghost use Rattle.derivation_trees.specs.Starts as starts;

use crate::setting::Setting;
use codeco_terms::{Element, Ground};

/// Whether the first element that takes tokens may stand at the place: it is the terminal there, a preterminal of a kind
/// that the token there has a reading of, or a category.
pub fn may_start(setting: &Setting<'_>, place: u16, body: &[Element]) -> bool
    ensures { result ≡ starts.may_start setting.now place body.now }
{
    for element in body {
        match element {
            Element::Terminal(terminal) => {
                return setting.matches_terminal(*terminal, place as usize);
            }
            Element::Preterminal(category) => return has_kind(setting, category.name, place),
            Element::Sub(_) => return true,
            _ => {}
        }
    }
    true
}

// Whether the token at the place has a reading of the kind.
fn has_kind(setting: &Setting<'_>, name: u16, place: u16) -> bool
    ensures { result ≡ starts.has_kind setting.now name place }
{
    match setting.readings.get(place as usize) {
        None => false,
        Some(readings) => some_has_name(readings.as_slice(), name),
    }
}

fn some_has_name(readings: &[Ground], name: u16) -> bool
    ensures { result ≡ list_any (λ reading. reading.name == name) readings.now }
{
    readings.iter().any(|reading| reading.name == name)
}
