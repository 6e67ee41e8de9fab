ghost use Rattle.std.specs.Prelude.{◌≡◌, ◌↔◌, ◌<◌, ◌+◌, length, map, IsTrue};
ghost use Rattle.std.specs.List.{Contains};
ghost use Rattle.po_core.specs.Core.{AreApart};
ghost use Rattle.po_core.specs.declared.event.Mark.TheVariants.{Untaken};
ghost use Rattle.po_ledger.specs.Calls.{Counts};
ghost use Rattle.po_ledger.specs.Parts.{HandAt};

use crate::hands::is_held;
use crate::untaken::is_untaken;
use po_base::FileNo;
use po_core::{Hand, Mark, Obl};

/// How many files are held. Time: the number of files.
pub(crate) fn held_count<P: Copy>(hands: &[Option<Hand<P>>], files: u32) -> u32
    requires { length hands.now ≡ files }
    ensures { Counts (HandAt hands.now) result }
{
    let mut held = 0;
    for number in 0..files {
        if is_held(hands, FileNo(number)) {
            held += 1;
        }
    }
    held
}

/// How many obligations are untaken. Time: the number of known obligations.
pub(crate) fn untaken_count<P: Copy, N: Copy>(marks: &[(Obl<P>, Mark<P, N>)]) -> u64
    requires { AreApart (map (λ e. e.0) marks.now) }
    ensures { Counts (λ o. Contains marks.now (o, Untaken)) result }
{
    let mut untaken = 0;
    for i in 0..marks.len() {
        let entry = marks[i];
        if is_untaken(entry.1) {
            untaken += 1;
        }
    }
    untaken
}

/// Whether one of two counts isn't 0.
pub(crate) fn is_some_left(held: u32, untaken: u64) -> bool
    ensures { IsTrue result ↔ (0 < held + untaken) }
{
    held > 0 || untaken > 0
}
