//! A value with several holders, so that a function that is made many times has its code once.
ghost use Rattle.std.specs.Prelude.{◌≡◌, IfOk};

use base_text::Mem;
use std::alloc::{AllocError, Global};
use std::marker::Model;
use std::rc::Rc;

/// A value that its holders share, which contracts see as the value itself.
#[derive(Drop)]
pub struct Shared<T> {
    inner: Rc<T, Global>,
}

impl<T> Model for Shared<T> {
    ghost Value = { T };

    ghost coded = { T.code };

    ghost view = { λ b. b.inner.value };
}

impl<T> Shared<T> {
    /// The value.
    pub fn get(&self) -> &T
        ensures { result.now ≡ self.now }
    {
        &self.inner
    }
}

impl<T: Drop> Shared<T> {
    /// The value, with one holder.
    pub fn new(alloc: Global, value: T) -> Result<Shared<T>, AllocError>
        ensures { IfOk result (λ b. b ≡ value) }
    {
        Ok(Shared {
            inner: Rc::new(alloc, value)?,
        })
    }

    /// Another holder of the same value.
    pub fn share(&self) -> Mem<Shared<T>>
        ensures { IfOk result (λ b. b ≡ self.now) }
    {
        Ok(Shared {
            inner: self.inner.clone()?,
        })
    }
}
