// Who holds which file, and with what.
ghost use Rattle.std.specs.Prelude.{◌≡◌, ◌<◌, ◌≤◌, ◌+◌, ◌↔◌, length, replicate, slice_get, slice_set, Some, None, IsTrue, IfOk, IfSome, IfNone};
ghost use Rattle.po_ledger.specs.Parts.{HandAt};

use po_base::{FileNo, Memory};
use po_core::Hand;
use std::alloc::Global;
use std::mem;

/// A place for each file, which nobody holds.
pub(crate) fn no_hands<P: Copy>(alloc: Global, files: u32) -> Result<Vec<Option<Hand<P>>>, Memory>
    ensures { IfOk result (λ hands. hands.items ≡ replicate files None) }
{
    let mut hands = Vec::new(alloc);
    for made in 0..files {
        match hands.push(None) {
            Ok(()) => {}
            Err(_) => return Err(Memory),
        }
    }
    Ok(hands)
}

/// Whether a file is held, in constant time.
pub(crate) fn is_held<P: Copy>(hands: &[Option<Hand<P>>], file: FileNo) -> bool
    ensures { IsTrue result ↔ HandAt hands.now file }
{
    match hands.get(file.0 as usize) {
        Some(Some(_)) => true,
        _ => false,
    }
}

/// The hand that holds a file, where it is held, in constant time.
pub(crate) fn hand_at<P: Copy>(hands: &[Option<Hand<P>>], file: FileNo) -> Option<&Hand<P>>
    ensures some { IfSome result (λ hand. slice_get hands.now file.0 ≡ Some (Some hand.now)) }
    ensures none { IfNone result (¬ HandAt hands.now file) }
{
    match hands.get(file.0 as usize) {
        Some(Some(hand)) => Some(hand),
        _ => None,
    }
}

/// Says who holds a file.
pub(crate) fn set_hand<P: Copy>(
    hands: &mut Vec<Option<Hand<P>>>,
    file: FileNo,
    hand: Option<Hand<P>>,
)
    requires { file.0 < length hands.old.items }
    ensures { hands.new.items ≡ slice_set hands.old.items file.0 hand }
{
    hands[file.0 as usize] = hand;
}

/// Makes a file free, and hands out the hand that held it.
pub(crate) fn free_hand<P: Copy>(hands: &mut Vec<Option<Hand<P>>>, file: FileNo) -> Hand<P>
    requires { HandAt hands.old.items file }
    ensures after { hands.new.items ≡ slice_set hands.old.items file.0 None }
    ensures before { slice_get hands.old.items file.0 ≡ Some (Some result) }
{
    let Some(hand) = mem::replace(&mut hands[file.0 as usize], None) else {
        unreachable!()
    };
    hand
}

/// One file more that is held, of so many files.
pub(crate) fn one_more(held: u32, files: u32) -> u32
    requires { held + 1 ≤ files }
    ensures { result ≡ held + 1 }
{
    let _most = files;
    held + 1
}
