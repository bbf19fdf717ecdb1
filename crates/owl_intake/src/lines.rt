// The line of a fault.
ghost use Rattle.std.specs.Prelude.{◌≡◌, ◌≢◌, ◌++◌, IfOk, codes};
ghost use Rattle.std.specs.Fmt.{decimal};
ghost use Rattle.owl_intake.specs.Checked.{fault_line};

use owl_reader::OwlFault;
use std::alloc::Global;
use wiki_base::{Memory, Text8};

/// The line of a fault: its name, a space, and the byte at which its token begins. Of want of memory there is none.
pub fn fault_line(alloc: Global, fault: OwlFault) -> Result<Text8, Memory>
    ensures line { IfOk result (λ line. line ≡ fault_line fault) }
    ensures memory { IfOk result (λ _. fault ≢ OwlFault.Memory) }
{
    match fault {
        OwlFault::Syntax(at) => named(alloc, "Syntax", at),
        OwlFault::Unsupported(at) => named(alloc, "Unsupported", at),
        OwlFault::Prefix(at) => named(alloc, "Prefix", at),
        OwlFault::TooDeep(at) => named(alloc, "TooDeep", at),
        OwlFault::Memory => Err(Memory),
    }
}

// A line with a name and a number.
fn named(alloc: Global, name: &str, at: u32) -> Result<Text8, Memory>
    ensures { IfOk result (λ line. line ≡ name.now ++ (codes " " ++ (decimal at ++ codes "\n"))) }
{
    Ok(Text8::from_string(format!(in alloc; "{name} {at}\n")?))
}
