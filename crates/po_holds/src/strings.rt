// Strings in the bytes of a block.
ghost use Rattle.std.specs.Prelude.{◌≡◌, ◌≢◌, ◌≤◌, ◌<◌, ◌+◌, ◌↔◌, ◌≤ℤ◌, ◌<ℤ◌, ◌+ℤ◌, List, pos, IsTrue, MatchOption, Some, length, slice_get};
ghost use Rattle.po_memory.specs.declared.value.Byte.{Byte};
ghost use Rattle.po_holds.specs.Choosing.{AreSome};
ghost use Rattle.po_holds.specs.Asking.{AllBefore, ArePlaces, EachFitsIn, FitsIn, IsEndOf};

use crate::choosing::Numbers;
use po_memory::Byte;

/// The places of a block from the first to the last.
#[derive(Clone, Copy, Debug)]
pub(crate) struct Places {
    pub(crate) first: usize,
    pub(crate) last: usize,
}

/// A place before the end.
fn place(base: &i128, moved: &i128, size: usize) -> Option<usize>
    ensures { MatchOption result (((pos 0 ≤ℤ (base.now +ℤ moved.now)) × ((base.now +ℤ moved.now) <ℤ pos size)) → ⊥) (λ i. ((base.now +ℤ moved.now) ≡ pos i) × (i < size)) }
{
    match base.checked_add(*moved) {
        None => None,
        Some(place) => {
            if place < 0 || size as i128 <= place {
                return None;
            }
            Some(place as usize)
        }
    }
}

/// The places that numbers are, exactly where all of them are places before the end.
pub(crate) fn places_of(at: &Numbers, size: usize) -> Option<Places>
    requires { AreSome at.now }
    ensures { MatchOption result (AllBefore at.now size → ⊥) (ArePlaces at.now size) }
{
    match place(&at.base, &at.lo, size) {
        None => None,
        Some(first) => match place(&at.base, &at.hi, size) {
            None => None,
            Some(last) => Some(Places { first, last }),
        },
    }
}

/// Where the string from a place on ends, by where that from the next place on does.
fn end_from(byte: &Byte, at: usize, next: Option<usize>) -> Option<usize>
    ensures { (bytes : List Byte) → slice_get bytes at ≡ Some byte.now → IsEndOf bytes (at + 1) next → IsEndOf bytes at result }
{
    match byte {
        Byte::Blank => None,
        Byte::Number(n) => {
            if *n == 0 {
                return Some(at);
            }
            next
        }
        Byte::Part { .. } => None,
    }
}

/// Whether the string from a place on takes so many bytes at most, its zero byte among them.
fn is_short(end: Option<usize>, at: usize, room: usize) -> bool
    ensures { (bytes : List Byte) → IsEndOf bytes at end → (IsTrue result ↔ FitsIn bytes room at) }
{
    match end {
        None => false,
        Some(zero) => at <= zero && zero - at < room,
    }
}

/// Whether a place lies behind the last, or the string there takes so many bytes at most.
fn is_met(end: Option<usize>, at: usize, last: usize, room: usize) -> bool
    ensures { (bytes : List Byte) → IsEndOf bytes at end → (IsTrue result ↔ (at ≤ last → FitsIn bytes room at)) }
{
    if last < at {
        return true;
    }
    is_short(end, at, room)
}

/// Whether a string stands at each of the places, and takes so many bytes at most. In time linear in the number of bytes
/// from the first place on.
pub(crate) fn fit(bytes: &[Byte], s: &Places, room: usize) -> bool
    requires { s.now.last < length bytes.now }
    ensures { IsTrue result ↔ EachFitsIn bytes.now room s.now.first s.now.last }
{
    let mut at = bytes.len();
    let mut end = None;
    while s.first < at {
        at -= 1;
        end = end_from(&bytes[at], at, end);
        if !is_met(end, at, s.last, room) {
            return false;
        }
    }
    true
}
