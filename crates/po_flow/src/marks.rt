// Marked places, of which the first is found in logarithmic time.
use po_base::Memory;
use std::alloc::Global;

/// The most levels that a tree has.
const LEVELS: u32 = 64;

/// Marked places, of which the first is found in time in the logarithm of their number: a tree of flags in which a
/// flag stands where a place below it is marked. The root is flag 1, and flags 2i and 2i + 1 are below flag i.
///
/// No contract speaks of it: who asks it where to look checks what it finds there.
#[derive(Drop)]
pub(crate) struct Marks {
    flags: Vec<bool>,
    /// The flag of place 0, a power of two.
    leaves: usize,
}

/// The least power of two that isn't below a number.
fn leaves_for(size: usize) -> usize {
    let mut leaves = 1usize;
    for _ in 0..LEVELS {
        if leaves >= size {
            return leaves;
        }
        leaves = leaves.saturating_mul(2);
    }
    leaves
}

/// Sets a flag where there is one.
fn set_flag(flags: &mut [bool], i: usize, flag: bool) {
    if i < flags.len() {
        flags[i] = flag;
    }
}

impl Marks {
    /// All places below a number are marked.
    pub(crate) fn all(alloc: Global, size: usize) -> Result<Marks, Memory> {
        let leaves = leaves_for(size);
        let flags = vec![in alloc; false; leaves.saturating_mul(2)]?;
        let mut marks = Marks { flags, leaves };
        for place in 0..size {
            marks.mark(place);
        }
        Ok(marks)
    }

    fn flag(&self, i: usize) -> bool {
        i < self.flags.len() && self.flags[i]
    }

    /// Marks a place. It takes no memory.
    pub(crate) fn mark(&mut self, place: usize) {
        let mut i = self.leaves.saturating_add(place);
        for _ in 0..LEVELS {
            if i == 0 || self.flag(i) {
                return;
            }
            set_flag(&mut self.flags, i, true);
            i /= 2;
        }
    }

    /// Takes a mark away. It takes no memory.
    pub(crate) fn clear(&mut self, place: usize) {
        let mut i = self.leaves.saturating_add(place);
        set_flag(&mut self.flags, i, false);
        for _ in 0..LEVELS {
            if i <= 1 || self.flag(i ^ 1) {
                return;
            }
            i /= 2;
            set_flag(&mut self.flags, i, false);
        }
    }

    /// The first marked place; where none is marked, some number.
    pub(crate) fn first(&self) -> usize {
        let mut i = 1usize;
        for _ in 0..LEVELS {
            if i >= self.leaves {
                return i.saturating_sub(self.leaves);
            }
            i = i.saturating_mul(2);
            if !self.flag(i) {
                i = i.saturating_add(1);
            }
        }
        i
    }
}
