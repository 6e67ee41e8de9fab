// Joins of bases.
ghost use Rattle.std.specs.Prelude.{◌≡◌, ◌^◌, ◌≤◌, min, length, IfOk};
ghost use Rattle.po_bases.specs.Bases as bases;
ghost use Rattle.po_bases.specs.Bases.{entry_cmp, join_entries};

use crate::bases::Bases;
use crate::entry::Entry;
use crate::keyed::Keyed;
use crate::merging::merge;
use po_arith::join_interval;
use po_base::{List, Memory, SharedList};
use std::alloc::Global;
use std::cmp::Ordering;

/// By base; the join has the hull of the offsets and the least grain.
impl Keyed for Entry {
    ghost key_order = { entry_cmp };

    ghost joined = { join_entries };

    fn cmp_key(&self, other: &Entry) -> Ordering {
        self.base.cmp(&other.base)
    }

    fn share(&self) -> Result<Entry, Memory> {
        Ok(*self)
    }

    fn join(&self, _alloc: Global, other: &Entry) -> Result<Entry, Memory> {
        Ok(Entry {
            base: self.base,
            off: join_interval(&self.off, &other.off),
            grain: self.grain.min(other.grain),
        })
    }
}

/// These bases where they are at most four, else unknown.
fn few(entries: List<Entry>) -> Result<Bases, Memory>
    ensures { IfOk result (λ b. b ≡ bases.few entries) }
{
    if entries.len() <= 4 {
        return Ok(Bases::Known(SharedList::from_list(entries)?));
    }
    Ok(Bases::Unknown)
}

/// The least bases that allow what `a` and what `b` allow: by base the hull of the offsets and the least grain;
/// unknown past four bases, or where one is unknown.
pub fn join_bases(alloc: Global, a: &Bases, b: &Bases) -> Result<Bases, Memory>
    ensures { IfOk result (λ joined. joined ≡ bases.join_bases a.now b.now) }
{
    match a {
        Bases::Unknown => Ok(Bases::Unknown),
        Bases::Known(xs) => match b {
            Bases::Unknown => Ok(Bases::Unknown),
            Bases::Known(ys) => few(merge(alloc, xs.as_slice(), ys.as_slice())?),
        },
    }
}
