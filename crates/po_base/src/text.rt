// Texts that never change, parts of which are shared.
ghost use Rattle.std.specs.Prelude.{◌≡◌, ◌≤◌, ◌-◌, IfOk, nat_eq, Some, take, drop, length};
ghost use Rattle.std.specs.Ordering.{nat_cmp};
ghost use Rattle.std.proofs.Common.{rules};
ghost use Rattle.std.specs.Cmp.{partial_equiv_from_equiv};
ghost use Rattle.std.specs.Cmp.Lexicographic.{pointwise, slice_cmp, nat_list_eq_equiv, nat_list_cmp_total, texts_ties, texts_po};
ghost use Rattle.std.specs.Hash as fed;
ghost use Rattle.std.specs.Cmp.Rules.{hashing};

use crate::memory::Memory;
use std::alloc::Global;
use std::cmp::Ordering;
use std::hash::{Hash, Hasher};
use std::marker::Model;
use std::sync::ArcSlice;

/// Bytes that never change, which contracts see as the list of them.
///
/// A text is a range of bytes that stand once in memory, however many texts are parts of them: the tokens of a file share the
/// file's bytes, and the name of a file stands in the spot of each node of its graphs. The whole is kept as long as one of
/// its parts. Texts are ordered byte by byte, a prefix first.
#[derive(Debug, Drop)]
pub struct Text {
    whole: ArcSlice<u8>,
    from: usize,
    to: usize,
}

impl Model for Text {
    ghost use Rattle.std.specs.Prelude.{ℕ, List, take, drop, length, ◌-◌, ◌≤◌};
    ghost use Rattle.std.specs.Arc.{arc_slice_items};

    ghost Value = { List ℕ };

    ghost view = { λ t. take (t.to - t.from) (drop t.from (arc_slice_items t.whole)) };

    ghost invariant = { λ t. (t.from ≤ t.to) × (t.to ≤ length (arc_slice_items t.whole)) };
}

impl Text {
    /// A text of these bytes. Time and memory are those of one copy.
    pub fn new(alloc: Global, bytes: &[u8]) -> Result<Text, Memory>
        ensures { IfOk result (λ text. text ≡ bytes.now) }
    {
        let to = bytes.len();
        let whole = ArcSlice::from_vec(Vec::from_slice(alloc, bytes)?)?;
        Ok(Text { whole, from: 0, to })
    }

    /// The bytes from one place up to, not including, another, as a text that shares them: in constant time and without a copy.
    /// `Memory` where the count of owners is full.
    pub fn part(&self, from: usize, to: usize) -> Result<Text, Memory>
        requires ascending { from ≤ to }
        requires within { to ≤ length self.now }
        ensures { IfOk result (λ text. text ≡ take (to - from) (drop from self.now)) }
    {
        let whole = self.whole.clone()?;
        Ok(Text {
            whole,
            from: self.from + from,
            to: self.from + to,
        })
    }

    /// The same text once more, in constant time and without a copy of its bytes. `Memory` where the
    /// count of its owners is full.
    pub fn share(&self) -> Result<Text, Memory>
        ensures { IfOk result (λ text. text ≡ self.now) }
    {
        let whole = self.whole.clone()?;
        Ok(Text {
            whole,
            from: self.from,
            to: self.to,
        })
    }

    /// The bytes.
    pub fn bytes(&self) -> &[u8]
        ensures { result.now ≡ self.now }
    {
        &self.whole[self.from..self.to]
    }
}

impl PartialEq for Text {
    ghost eq = { pointwise nat_eq };

    ghost laws = { partial_equiv_from_equiv nat_list_eq_equiv };

    fn eq(&self, other: &Text) -> bool {
        self.bytes() == other.bytes()
    }
}

impl Eq for Text {
    ghost laws = { nat_list_eq_equiv };
}

impl PartialOrd for Text {
    ghost partial_cmp = { λ x y. Some (slice_cmp nat_cmp x y) };

    ghost laws = { texts_po };

    fn partial_cmp(&self, other: &Text) -> Option<Ordering> {
        Some(self.cmp(other))
    }
}

impl Ord for Text {
    ghost cmp = { slice_cmp nat_cmp };

    ghost total = { nat_list_cmp_total };

    ghost matches_partial_cmp = { Prim.search rules };

    ghost matches_eq = { texts_ties };

    fn cmp(&self, other: &Text) -> Ordering {
        self.bytes().cmp(other.bytes())
    }
}

/// Equal texts feed a hasher the same bytes.
impl Hash for Text {
    ghost hash_input = { fed.slice fed.u8 };

    ghost respects_eq = { Prim.search (hashing, rules) };

    fn hash<H: Hasher>(&self, state: &mut H) {
        self.bytes().hash(state);
    }
}
