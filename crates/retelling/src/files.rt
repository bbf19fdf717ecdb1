// What a wiki knows, as a file.
ghost use Rattle.std.specs.Prelude.{IfOk};
ghost use Rattle.retelling.specs.Files.{TellsFile};

use owl_file::write_owl;
use std::alloc::Global;
use wiki_base::{Memory, Text8};
use wiki_core::Wiki;

/// The file of all that the wiki knows, in the functional-style syntax of OWL 2: a declaration of each live word in order of
/// number, and the axioms of the asserted sentences in order.
pub fn file_of(alloc: Global, wiki: &Wiki) -> Result<Text8, Memory>
    ensures { IfOk result (TellsFile wiki.now.state.stored) }
{
    write_owl(alloc, wiki.lexicon(), wiki.asserted())
}
