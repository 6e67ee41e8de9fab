// Blocks of memory.
ghost use Rattle.std.specs.Prelude.{◌≡◌, ◌≤◌, ◌<◌, ◌↔◌, IsTrue, MatchOption, length, pos};
ghost use Rattle.po_memory.specs.Blocks.{HaveValues, IsAligned, IsInside, Spans};
ghost use Rattle.po_memory.specs.Walking as walking;
ghost use Rattle.po_memory.specs.Walking.{HaveValuesFrom, IsStretch};
ghost use Rattle.po_memory.specs.declared.value.Byte.TheVariants as byte;

use crate::value::Byte;
use po_base::List;

/// A block of memory: the bytes of one object, or of one allocation (C99 3.14, 6.2.4).
#[derive(Debug, Drop)]
pub struct Block {
    pub bytes: List<Byte>,
    /// In bytes, at least 1.
    pub align: u64,
    /// Whether its lifetime hasn't ended.
    pub alive: bool,
    pub writable: bool,
    /// Whether it comes from malloc or calloc (C99 7.20.3).
    pub heap: bool,
}

/// Bytes of a block from one place up to, not including, the other.
#[derive(Clone, Copy, Debug)]
pub(crate) struct Stretch {
    pub(crate) start: usize,
    pub(crate) end: usize,
}

/// Whether a byte has no value yet.
fn is_blank(b: &Byte) -> bool
    ensures { IsTrue result ↔ (b.now ≡ byte.Blank) }
{
    match b {
        Byte::Blank => true,
        Byte::Number(_) => false,
        Byte::Part { .. } => false,
    }
}

/// The place among those from 0 up to the size that is nearest to this one.
fn clamped(place: i128, size: usize) -> usize
    ensures { result ≡ walking.clamped place size }
{
    if place < 0 {
        return 0;
    }
    if size as i128 <= place {
        return size;
    }
    place as usize
}

pub(crate) fn have_values(bytes: &[Byte], start: usize, end: usize) -> bool
    requires { end ≤ length bytes.now }
    ensures { IsTrue result ↔ HaveValuesFrom start end bytes.now }
{
    for i in start..end {
        if is_blank(&bytes[i]) {
            return false;
        }
    }
    true
}

impl Block {
    /// Whether so many bytes from the start on there is a byte of the block, or the place one past its last byte
    /// (C99 6.5.6p8).
    pub fn is_inside(&self, place: i128) -> bool
        ensures { IsTrue result ↔ IsInside self.now place }
    {
        0 <= place && place <= self.bytes.len() as i128
    }

    /// Where so many bytes from a place on stand, exactly where they lie in the block.
    pub(crate) fn stretch(&self, place: i128, size: u64) -> Option<Stretch>
        ensures { MatchOption result (Spans (pos 0) (pos size) place self.now → ⊥) (IsStretch place size self.now) }
    {
        let length = self.bytes.len();
        if place < 0 || place > length as i128 {
            return None;
        }
        let start = place as usize;
        if ((length - start) as u64) < size {
            return None;
        }
        Some(Stretch {
            start,
            end: start + size as usize,
        })
    }

    /// Whether a place is a multiple of `align` bytes from the start, and the block aligned to that.
    pub fn is_aligned(&self, place: i128, align: u64) -> bool
        ensures { IsTrue result ↔ IsAligned align place self.now }
    {
        let size = place.unsigned_abs();
        if align == 0 {
            return size == 0;
        }
        size % align as u128 == 0 && align <= self.align
    }

    /// Whether a place is so aligned, where that is more than every place is.
    pub(crate) fn is_aligned_above(&self, place: i128, align: u64) -> bool
        ensures { IsTrue result ↔ (1 < align → IsAligned align place self.now) }
    {
        align <= 1 || self.is_aligned(place, align)
    }

    /// Whether no byte from the one place up to, not including, the other is without a value (C99 6.2.4p5). In time
    /// linear in the number of bytes between them.
    pub fn is_filled(&self, from: i128, to: i128) -> bool
        ensures { IsTrue result ↔ HaveValues from to self.now.bytes }
    {
        let size = self.bytes.len();
        have_values(
            self.bytes.as_slice(),
            clamped(from, size),
            clamped(to, size),
        )
    }
}
