// A value with several owners.
ghost use Rattle.std.specs.Prelude.{◌≡◌, IfOk};

use lists::{Copied, Memory};
use std::alloc::Global;
use std::marker::Model;
use std::rc::Rc;

/// An `Rc` that contracts see as its value. A copy is the same value in the same memory.
#[derive(Drop)]
pub struct Shared<T> {
    inner: Rc<T>,
}

impl<T> Model for Shared<T> {
    ghost Value = { T };

    ghost coded = { T.code };

    ghost view = { λ s. s.inner.value };
}

impl<T> Shared<T> {
    /// The value.
    pub fn get(&self) -> &T
        ensures { result.now ≡ self.now }
    {
        self.inner.as_ref()
    }
}

impl<T: Drop> Shared<T> {
    /// The value, moved to where it can be shared.
    pub fn new(alloc: Global, value: T) -> Result<Shared<T>, Memory>
        ensures { IfOk result (λ shared. shared ≡ value) }
    {
        Ok(Shared {
            inner: Rc::new(alloc, value)?,
        })
    }
}

impl<T: Drop> Copied for Shared<T> {
    fn copy(&self) -> Result<Shared<T>, Memory> {
        Ok(Shared {
            inner: self.inner.clone()?,
        })
    }
}
