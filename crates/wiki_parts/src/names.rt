// The live words that are names.
ghost use Rattle.std.specs.Prelude.{◌≡◌, IfOk};
ghost use Rattle.plain_wiki.specs.Knowledge.{is_name, live_names};

use lexicon::{Kind, Lexicon};
use logic_terms::Names;
use std::alloc::Global;
use wiki_base::Memory;

/// The live words that are names, in order of number.
pub fn live_names(alloc: Global, lexicon: &Lexicon) -> Result<Names, Memory>
    ensures { IfOk result (λ names. names ≡ live_names lexicon.now) }
{
    let mut names = Names::new(alloc);
    for place in 0..lexicon.len() {
        let word = lexicon.get(place);
        if is_name(word.forms.kind) {
            names.push(word.id)?;
        }
    }
    Ok(names)
}

fn is_name(kind: Kind) -> bool
    ensures { result ≡ is_name kind }
{
    matches!(kind, Kind::Name)
}
