// Copies that are equal to what they were made of.
ghost use Rattle.std.specs.Prelude.{◌≡◌, IfOk};

use crate::memory::Memory;

/// Types of which an equal value can be made, which may take memory.
pub trait Copied {
    /// An equal value.
    fn copy(&self) -> Result<Self, Memory>
        ensures { IfOk result (λ copied. copied ≡ self.now) };
}

impl Copied for bool {
    fn copy(&self) -> Result<bool, Memory> {
        Ok(*self)
    }
}

impl Copied for u8 {
    fn copy(&self) -> Result<u8, Memory> {
        Ok(*self)
    }
}

impl Copied for u16 {
    fn copy(&self) -> Result<u16, Memory> {
        Ok(*self)
    }
}

impl Copied for u32 {
    fn copy(&self) -> Result<u32, Memory> {
        Ok(*self)
    }
}

impl Copied for u64 {
    fn copy(&self) -> Result<u64, Memory> {
        Ok(*self)
    }
}

impl Copied for usize {
    fn copy(&self) -> Result<usize, Memory> {
        Ok(*self)
    }
}

impl<T: Copied> Copied for Option<T> {
    fn copy(&self) -> Result<Option<T>, Memory> {
        match self {
            Some(value) => Ok(Some(value.copy()?)),
            None => Ok(None),
        }
    }
}

impl<A: Copied + Drop, B: Copied> Copied for (A, B) {
    fn copy(&self) -> Result<(A, B), Memory> {
        let first = self.0.copy()?;
        Ok((first, self.1.copy()?))
    }
}
