// The reading of a whole file, by the grammar.
ghost use Rattle.std.specs.Prelude.{◌≤◌, ℕ, List, Ok, IfOk, IfErr, length};
ghost use Rattle.logic_terms.specs.Concept.{Claim};
ghost use Rattle.logic_terms.specs.Shown.{claims_of};
ghost use Rattle.owl_reader.specs.declared.kinds.Entity.{Entity};
ghost use Rattle.owl_reader.specs.Shown.{Answers, Reads};
ghost use Rattle.owl_grammar.specs.Files.{IsOwlFile};
ghost use Rattle.owl_grammar.specs.Faults.{IsFault};

use owl_reader::{OwlDoc, OwlFault};
use std::alloc::Global;

/// The entities and the axioms of a file in the functional-style syntax of OWL 2, in the profile of docs/OWL.md: each entity once,
/// in the order in which they first come, and the axioms in order. Else the fault of the first token that has one.
pub fn read_owl(alloc: Global, text: &[u8]) -> Result<OwlDoc, OwlFault>
    requires { length text.now ≤ 16777216 }
    // What is read is a file that says so.
    ensures ok { IfOk result (λ doc. IsOwlFile text.now doc.entities (claims_of doc.axioms)) }
    // A file is read as what it says, unless memory runs out.
    ensures only { (entities : List Entity) (claims : List Claim) → IsOwlFile text.now entities claims → Answers (Ok (entities, claims)) result }
    // A fault is that of the first token that has one.
    ensures fault { IfErr result (IsFault text.now) }
    // What is read is what the tokens say, one after another.
    ensures reading { Reads text.now result }
{
    owl_reader::read_owl(alloc, text)
}
