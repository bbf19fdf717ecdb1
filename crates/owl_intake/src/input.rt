// The bytes of a whole input.
ghost use Rattle.std.specs.Prelude.{◌≡◌, ◌<◌, ◌≤◌, ◌+◌, ◌++◌, IfOk, OnOk, IsErrOf, length, take};
ghost use Rattle.wiki_io.specs.Faults.{Rose};
ghost use Rattle.owl_intake.specs.Input.{ReadsInput};
ghost use Rattle.owl_intake.specs.declared.input.CutShort.TheVariants as cut;

use std::alloc::{AllocError, Global};
use wiki_base::{Bytes, Memory};
use wiki_io::{Got, Source};

/// The most bytes that a file may have.
pub const MOST_BYTES: usize = 16_777_216;

// How many bytes are asked for at once.
const BLOCK: usize = 65_536;

/// Why an input wasn't read to its end.
#[derive(Clone, Copy, Debug, PartialEq, Eq)]
pub enum CutShort {
    /// A read failed.
    ReadFault,
    /// The input has more than `MOST_BYTES` bytes.
    TooMuch,
    /// An allocation was refused.
    Memory,
}

impl From<AllocError> for CutShort {
    ghost from_gives = { λ _ e. e ≡ cut.Memory };

    fn from(_: AllocError) -> Self {
        CutShort::Memory
    }
}

/// All bytes of an input, from where it stands.
pub fn read_input<S: Source>(alloc: Global, input: &mut S) -> Result<Bytes, CutShort>
    ensures reads { ReadsInput (S.left input.old) (S.left input.new) result }
    ensures few { IfOk result (λ bytes. length bytes ≤ MOST_BYTES) }
    ensures read_fault { IsErrOf result CutShort.ReadFault → Rose (S.faults input.old) (S.faults input.new) }
{
    let mut block = match new_block(alloc, BLOCK) {
        Ok(block) => block,
        Err(Memory) => return Err(CutShort::Memory),
    };
    read_blocks(alloc, input, &mut block)
}

// A block of so many bytes.
fn new_block(alloc: Global, size: usize) -> Result<Vec<u8>, Memory>
    ensures { IfOk result (λ block. length block.items ≡ size) }
{
    Ok(vec![in alloc; 0u8; size]?)
}

// All bytes of an input, block by block.
fn read_blocks<S: Source>(alloc: Global, input: &mut S, block: &mut [u8]) -> Result<Bytes, CutShort>
    requires { 0 < length block.old }
    ensures reads { ReadsInput (S.left input.old) (S.left input.new) result }
    ensures few { IfOk result (λ bytes. length bytes ≤ MOST_BYTES) }
    ensures read_fault { IsErrOf result CutShort.ReadFault → Rose (S.faults input.old) (S.faults input.new) }
{
    let mut bytes = Vec::new(alloc);
    'reads: loop {
        match input.read(block) {
            Got::Bytes(count) => {
                if let Err(cut) = add_front(&mut bytes, block, count) {
                    return Err(cut);
                }
            }
            Got::End => return Ok(Bytes::from_vec(bytes)),
            Got::Failed => return Err(CutShort::ReadFault),
        }
    }
}

// Adds the first bytes of a block, if all of them are not too many then.
fn add_front(bytes: &mut Vec<u8>, block: &[u8], count: usize) -> Result<(), CutShort>
    requires few { length bytes.old.items ≤ MOST_BYTES }
    requires within { count ≤ length block.now }
    ensures added { OnOk result (bytes.new.items ≡ bytes.old.items ++ take count block.now) }
    ensures few { OnOk result (length bytes.new.items ≤ MOST_BYTES) }
    ensures too_much { result ≡ Err CutShort.TooMuch → MOST_BYTES < length bytes.old.items + count }
    ensures memory { result ≡ Err CutShort.Memory → length bytes.old.items + count ≤ MOST_BYTES }
    ensures read_fault { IsErrOf result CutShort.ReadFault → ⊥ }
{
    if count > MOST_BYTES - bytes.len() {
        return Err(CutShort::TooMuch);
    }
    bytes.extend_from_slice(&block[..count])?;
    Ok(())
}
