// The known obligations with their marks, by an index.
ghost use Rattle.std.specs.Prelude.{◌≡◌, ◌++◌, ◌↔◌, ◌<◌, [], ◌∷◌, length, map, slice_index_or, IsTrue, IfSome, IfNone, IsOk, OnOk, OnErr, None};
ghost use Rattle.std.specs.List.{Contains};
ghost use Rattle.indexmap.specs.IndexMap.{spare};
ghost use Rattle.po_core.specs.Core.{AreApart};
ghost use Rattle.po_core.specs.declared.event.Mark.{Mark};
ghost use Rattle.po_core.specs.declared.event.Mark.TheVariants.{Untaken, Taken, Settled};
ghost use Rattle.po_core.specs.declared.obl.Obl.{Obl};
ghost use Rattle.po_core.specs.declared.obl.Verdict.{Verdict};
ghost use Rattle.po_marks.specs.Known.{HasKey, HasVerdict, IsValueOf, PutsValue, SetsEach, SetsMark};

use indexmap::IndexMap;
use po_base::Memory;
use po_core::{Mark, Obl, Rulebook, Verdict};
use std::hash::Hash;

/// Known obligations with their marks.
pub type Entries<P, N> = IndexMap<Obl<P>, Mark<P, N>>;

/// The value of a key, in constant time on the average.
fn value_of<K: Eq + Hash, V: Copy>(map: &IndexMap<K, V>, key: &K) -> Option<V>
    ensures { IsValueOf K.eq map.now.entries key.now result }
{
    match map.get(key) {
        Some(value) => Some(*value),
        None => None,
    }
}

/// Gives a key a value. A key that was there stays in its place, and takes no memory. After `Memory` nothing has changed. In constant
/// time on the average.
fn put_value<K: Eq + Hash + Drop, V: Drop>(
    map: &mut IndexMap<K, V>,
    key: K,
    value: V,
) -> Result<(), Memory>
    ensures ok { OnOk result (PutsValue K.eq key value map.old.entries map.new.entries) }
    ensures err { OnErr result (map.new.entries ≡ map.old.entries) }
    ensures absent { OnErr result (IsValueOf K.eq map.old.entries key None) }
    ensures succeeds { 0 < spare map.old → IsOk result }
{
    match map.insert(key, value) {
        Ok(_) => Ok(()),
        Err(_) => Err(Memory),
    }
}

/// The mark of an obligation, where it is known, in constant time on the average.
pub fn mark_of<R: Rulebook>(
    book: &R,
    known: &Entries<R::Pred, R::Rule>,
    o: &Obl<R::Pred>,
) -> Option<Mark<R::Pred, R::Rule>>
    ensures some { IfSome result (λ m. Contains known.now.entries (o.now, m)) }
    ensures none { IfNone result (¬ HasKey known.now.entries o.now) }
{
    let _book = book;
    value_of(known, o)
}

/// Whether an obligation is known, in constant time on the average.
pub fn is_known<R: Rulebook>(book: &R, known: &Entries<R::Pred, R::Rule>, o: &Obl<R::Pred>) -> bool
    ensures { IsTrue result ↔ HasKey known.now.entries o.now }
{
    match mark_of(book, known, o) {
        Some(_) => true,
        None => false,
    }
}

/// Whether a mark is a verdict.
fn is_settled<P: Copy, N: Copy>(mark: Mark<P, N>) -> bool
    ensures { IsTrue result ↔ ((v : Verdict P N) × (mark ≡ Settled v)) }
{
    match mark {
        Mark::Settled(_) => true,
        _ => false,
    }
}

/// Whether a mark says that an obligation is taken.
fn is_taken<P: Copy, N: Copy>(mark: Mark<P, N>) -> bool
    ensures { IsTrue result ↔ (mark ≡ Taken) }
{
    match mark {
        Mark::Taken => true,
        _ => false,
    }
}

/// Whether an obligation has a verdict, in constant time on the average.
pub fn has_verdict<R: Rulebook>(
    book: &R,
    known: &Entries<R::Pred, R::Rule>,
    o: &Obl<R::Pred>,
) -> bool
    requires { AreApart (map (λ e. e.0) known.now.entries) }
    ensures { IsTrue result ↔ HasVerdict known.now.entries o.now }
{
    match mark_of(book, known, o) {
        Some(mark) => is_settled(mark),
        None => false,
    }
}

/// Whether an obligation is taken, in constant time on the average.
pub(crate) fn is_in_hand<R: Rulebook>(
    book: &R,
    known: &Entries<R::Pred, R::Rule>,
    o: &Obl<R::Pred>,
) -> bool
    requires { AreApart (map (λ e. e.0) known.now.entries) }
    ensures { IsTrue result ↔ Contains known.now.entries (o.now, Taken) }
{
    match mark_of(book, known, o) {
        Some(mark) => is_taken(mark),
        None => false,
    }
}

/// Makes room for one more obligation. The obligations are the same, also after `Memory`. In constant time on the average.
pub(crate) fn make_room<P: Copy + Eq + Hash, N: Copy>(
    known: &mut Entries<P, N>,
) -> Result<(), Memory>
    ensures entries { known.new.entries ≡ known.old.entries }
    ensures room { OnOk result (0 < spare known.new) }
{
    known.reserve(1)?;
    Ok(())
}

/// Makes a new obligation known, untaken, where there is room for it. It takes no memory, and constant time on the average.
pub(crate) fn insert_new<R: Rulebook>(
    book: &R,
    known: &mut Entries<R::Pred, R::Rule>,
    o: Obl<R::Pred>,
)
    requires new { ¬ HasKey known.old.entries o }
    requires room { 0 < spare known.old }
    ensures { known.new.entries ≡ known.old.entries ++ (o, Untaken) ∷ [] }
{
    let _book = book;
    match put_value(known, o, Mark::Untaken) {
        Ok(()) => {}
        Err(Memory) => unreachable!(),
    }
}

/// Takes the last obligation out again, in constant time on the average.
pub(crate) fn pop_last<P: Copy + Eq + Hash, N: Copy>(known: &mut Entries<P, N>) -> Obl<P>
    requires { 0 < length known.old.entries }
    ensures { (mark : Mark P N) × (known.old.entries ≡ known.new.entries ++ (result, mark) ∷ []) }
{
    match known.pop() {
        Some((o, _)) => o,
        None => unreachable!(),
    }
}

/// Gives a known obligation a mark. It takes no memory, and constant time on the average.
pub(crate) fn set_mark<R: Rulebook>(
    book: &R,
    known: &mut Entries<R::Pred, R::Rule>,
    o: Obl<R::Pred>,
    mark: Mark<R::Pred, R::Rule>,
)
    requires there { HasKey known.old.entries o }
    requires apart { AreApart (map (λ e. e.0) known.old.entries) }
    ensures { SetsMark o mark known.old.entries known.new.entries }
{
    let _book = book;
    match put_value(known, o, mark) {
        Ok(()) => {}
        Err(Memory) => unreachable!(),
    }
}

/// Gives each of some known obligations a mark. It takes no memory. Time: their number, on the average.
pub(crate) fn set_each<R: Rulebook>(
    book: &R,
    known: &mut Entries<R::Pred, R::Rule>,
    os: &[Obl<R::Pred>],
    mark: Mark<R::Pred, R::Rule>,
)
    requires there { (o : Obl R.Pred) → Contains os.now o → HasKey known.old.entries o }
    requires apart { AreApart (map (λ e. e.0) known.old.entries) }
    requires once { AreApart os.now }
    ensures { SetsEach os.now mark known.old.entries known.new.entries }
{
    for o in os {
        set_mark(book, known, *o, mark);
    }
}

/// The obligation at a place, in the order in which they became known, and its mark. In constant time.
pub fn entry_at<P: Copy + Eq + Hash, N: Copy>(
    known: &Entries<P, N>,
    at: usize,
) -> (Obl<P>, Mark<P, N>)
    requires { at < length known.now.entries }
    ensures { result ≡ slice_index_or known.now.entries at result }
{
    match known.get_index(at) {
        Some((o, mark)) => (*o, *mark),
        None => unreachable!(),
    }
}
