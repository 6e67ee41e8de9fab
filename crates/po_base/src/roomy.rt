// Lists with room, into which a push takes no memory.
ghost use Rattle.std.specs.Prelude.{◌≡◌, [], ◌∷◌, ◌++◌, ◌<◌, ◌≤◌, ◌+◌, ◌-◌, length, MatchOption, IfOk, IsOk, OnOk, OnErr};

use crate::list::List;
use crate::memory::Memory;
use std::alloc::Global;
use std::marker::Model;

/// A list with room: contracts see its items and, beside them, for how many more there is room. A push into
/// room that is there succeeds, so a caller that made room before needs no memory later.
#[derive(Drop)]
pub struct Roomy<T> {
    items: Vec<T>,
}

impl<T> Model for Roomy<T> {
    ghost use Rattle.std.specs.Prelude.{◌-◌};
    ghost use Rattle.std.specs.Vec.{vec_len, vec_capacity};
    ghost use Rattle.po_base.specs.Room.{Room, room_code};

    ghost Value = { Room T };

    ghost coded = { room_code T.code };

    ghost view = { λ r. record { items = r.items.items; spare = vec_capacity r.items - vec_len r.items } };
}

impl<T> Roomy<T> {
    /// No items. It takes no memory yet.
    pub fn new(alloc: Global) -> Roomy<T>
        ensures { result.items ≡ [] }
    {
        Roomy {
            items: Vec::new(alloc),
        }
    }

    /// Makes room for `more` further items at once. The items are the same, also after `Memory`, and no
    /// room is lost. Where that much room was there, it succeeds.
    pub fn reserve(&mut self, more: usize) -> Result<(), Memory>
        ensures items { self.new.items ≡ self.old.items }
        ensures room { OnOk result (more ≤ self.new.spare) }
        ensures kept { self.old.spare ≤ self.new.spare }
        ensures succeeds { more ≤ self.old.spare → IsOk result }
    {
        self.items.reserve(more)?;
        Ok(())
    }

    /// Takes the last item away, where there is one, in constant time. Its room is free again.
    pub fn pop(&mut self) -> Option<T>
        ensures item { MatchOption result ((self.old.items ≡ []) × (self.new.items ≡ [])) (λ last. self.old.items ≡ self.new.items ++ last ∷ []) }
        ensures room { MatchOption result (self.new.spare ≡ self.old.spare) (λ _. self.new.spare ≡ self.old.spare + 1) }
    {
        self.items.pop()
    }

    /// The items as a slice.
    pub fn as_slice(&self) -> &[T]
        ensures { result.now ≡ self.now.items }
    {
        self.items.as_slice()
    }

    /// How many items there are.
    pub fn len(&self) -> usize
        ensures { result ≡ length self.now.items }
    {
        self.items.len()
    }

    /// The list of the items, without a copy.
    pub fn into_list(self) -> List<T>
        ensures { result ≡ self.items }
    {
        let Roomy { items } = self;
        List::from_vec(items)
    }
}

impl<T: Drop> Roomy<T> {
    /// Puts an item at the end, in constant time on the average of many. It answers `Memory` only where no
    /// room was left; then the items are the same and the item is dropped.
    pub fn push(&mut self, item: T) -> Result<(), Memory>
        ensures ok { OnOk result (self.new.items ≡ self.old.items ++ item ∷ []) }
        ensures err { OnErr result (self.new.items ≡ self.old.items) }
        ensures room { self.old.spare ≤ self.new.spare + 1 }
        ensures succeeds { 0 < self.old.spare → IsOk result }
    {
        match self.items.push(item) {
            Ok(()) => Ok(()),
            Err(_) => Err(Memory),
        }
    }
}
