ghost use Rattle.std.specs.Prelude.{◌≡◌, ◌<◌, ◌↔◌, length, replicate, slice_get, slice_set, Some, None, IsTrue, IfOk, IsSome};
ghost use Rattle.po_base.specs.declared.numbers.FileNo.{FileNo};
ghost use Rattle.po_ledger.specs.Parts.{HandAt};

use po_base::{FileNo, Memory};
use po_core::Hand;
use std::alloc::Global;
use std::mem;

/// A place for each file, which nobody holds.
pub(crate) fn no_hands<P: Copy>(alloc: Global, files: u32) -> Result<Vec<Option<Hand<P>>>, Memory>
    ensures { IfOk result (λ hands. hands.items ≡ replicate files None) }
{
    let mut hands = Vec::new(alloc);
    for made in 0..files {
        match hands.push(None) {
            Ok(()) => {}
            Err(_) => return Err(Memory),
        }
    }
    Ok(hands)
}

/// Whether a file is held.
pub(crate) fn is_held<P: Copy>(hands: &[Option<Hand<P>>], file: FileNo) -> bool
    ensures { IsTrue result ↔ HandAt hands.now file }
{
    match hands.get(file.0 as usize) {
        Some(Some(_)) => true,
        _ => false,
    }
}

/// Whether a file's place says that it is held.
fn is_hand<P: Copy>(place: &Option<Hand<P>>) -> bool
    ensures { IsTrue result ↔ IsSome place.now }
{
    place.is_some()
}

/// Whether any file is held. Time: the number of files.
pub(crate) fn any_held<P: Copy>(hands: &[Option<Hand<P>>]) -> bool
    ensures { IsTrue result ↔ ((file : FileNo) × HandAt hands.now file) }
{
    for i in 0..hands.len() {
        if is_hand(&hands[i]) {
            return true;
        }
    }
    false
}

/// Says who holds a file.
pub(crate) fn set_hand<P: Copy>(
    hands: &mut Vec<Option<Hand<P>>>,
    file: FileNo,
    hand: Option<Hand<P>>,
)
    requires { file.0 < length hands.old.items }
    ensures { hands.new.items ≡ slice_set hands.old.items file.0 hand }
{
    hands[file.0 as usize] = hand;
}

/// Makes a file free, and hands out the hand that held it.
pub(crate) fn free_hand<P: Copy>(hands: &mut Vec<Option<Hand<P>>>, file: FileNo) -> Hand<P>
    requires { HandAt hands.old.items file }
    ensures after { hands.new.items ≡ slice_set hands.old.items file.0 None }
    ensures before { slice_get hands.old.items file.0 ≡ Some (Some result) }
{
    let Some(hand) = mem::replace(&mut hands[file.0 as usize], None) else {
        unreachable!()
    };
    hand
}
