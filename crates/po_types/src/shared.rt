// Values on the heap that never change and that many can hold.
ghost use Rattle.std.specs.Prelude.{◌≡◌, IfOk, IfSome};
ghost use Rattle.std.specs.Arc.{arc_value};

use po_base::Memory;
use std::alloc::Global;
use std::marker::Model;
use std::sync::Arc;

/// A value on the heap that never changes and may have several owners, which contracts see as the value itself. It may
/// stand inside the type of its own value.
pub struct Shared<T> {
    inner: Arc<T>,
}

impl<T> Model for Shared<T> {
    ghost Value = { T };

    ghost coded = { T.code };

    ghost view = { λ s. s.inner.value };
}

impl<T> Shared<T> {
    /// The value.
    pub fn get(&self) -> &T
        ensures { result.now ≡ self.now }
    {
        &self.inner
    }

    /// The same value once more, in constant time and without a copy. `Memory` where the count of its owners is full.
    pub fn share(&self) -> Result<Shared<T>, Memory>
        ensures { IfOk result (λ shared. shared ≡ self.now) }
    {
        let inner = Arc::try_clone(&self.inner)?;
        Ok(Shared { inner })
    }

    /// The value where this was its last owner. Otherwise this owner is given up.
    pub fn into_inner(self) -> Option<T>
        ensures { IfSome result (λ value. value ≡ self) }
    {
        let Shared { inner } = self;
        Arc::into_inner(inner)
    }
}

impl<T: Drop> Shared<T> {
    /// Moves a value to the heap.
    pub fn new(alloc: Global, value: T) -> Result<Shared<T>, Memory>
        ensures { IfOk result (λ shared. shared ≡ value) }
    {
        match Arc::new(alloc, value) {
            Ok(inner) => Ok(Shared { inner }),
            Err(_) => Err(Memory),
        }
    }
}

impl<T: Drop> Drop for Shared<T> {
    fn drop(self) {
        let Shared { inner } = self;
        drop(inner);
    }
}
