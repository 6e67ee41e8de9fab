ghost use Rattle.std.specs.Prelude.{◌≡◌, ◌++◌, ◌↔◌, [], ◌∷◌, List, IsTrue, IfOk, OnOk, OnErr};
ghost use Rattle.po_core.specs.declared.event.Mark.{Mark};
ghost use Rattle.po_core.specs.declared.event.Mark.TheVariants.{Untaken};
ghost use Rattle.po_core.specs.declared.obl.Obl.{Obl};
ghost use Rattle.po_ledger.specs.Parts.{HasKey, AddsUntaken, AddsEach, primaries_below, primaries_of, supports_of};

use po_base::{FunNo, Memory, NodeNo};
use po_core::{Cause, Mark, Obl, Rulebook};
use std::alloc::Global;

/// Each known obligation with its mark, in the order in which they became known, none twice.
pub(crate) type Marks<P, N> = Vec<(Obl<P>, Mark<P, N>)>;

/// Whether two predicates are the same.
pub(crate) fn is_same_pred<R: Rulebook>(book: &R, p: R::Pred, q: R::Pred) -> bool
    ensures { IsTrue result ↔ (p ≡ q) }
{
    let _book = book;
    p == q
}

/// Whether two causes are the same.
fn is_same_cause<R: Rulebook>(book: &R, a: &Cause<R::Pred>, b: &Cause<R::Pred>) -> bool
    ensures { IsTrue result ↔ (a.now ≡ b.now) }
{
    match (a, b) {
        (Cause::Primary(i), Cause::Primary(j)) => *i == *j,
        (Cause::Support(p), Cause::Support(q)) => is_same_pred(book, *p, *q),
        _ => false,
    }
}

/// Whether two obligations are the same.
pub(crate) fn is_same<R: Rulebook>(book: &R, a: &Obl<R::Pred>, b: &Obl<R::Pred>) -> bool
    ensures { IsTrue result ↔ (a.now ≡ b.now) }
{
    if a.fun == b.fun && a.node == b.node {
        return is_same_cause(book, &a.cause, &b.cause);
    }
    false
}

/// Whether an obligation is known. Time: the number of known obligations.
fn is_known<R: Rulebook>(
    book: &R,
    marks: &[(Obl<R::Pred>, Mark<R::Pred, R::Rule>)],
    o: &Obl<R::Pred>,
) -> bool
    ensures { IsTrue result ↔ HasKey marks.now o.now }
{
    for entry in marks {
        if is_same(book, &entry.0, o) {
            return true;
        }
    }
    false
}

/// Puts a new obligation to those that are known, untaken. After `Memory` nothing has changed.
fn push_new<P: Copy, N: Copy>(marks: &mut Marks<P, N>, o: Obl<P>) -> Result<(), Memory>
    ensures ok { OnOk result (marks.new.items ≡ marks.old.items ++ (o, Untaken) ∷ []) }
    ensures err { OnErr result (marks.new.items ≡ marks.old.items) }
{
    match marks.push((o, Mark::Untaken)) {
        Ok(()) => Ok(()),
        Err(_) => Err(Memory),
    }
}

/// Makes an obligation known and untaken, unless it is known. After `Memory` nothing has changed. Time: the
/// number of known obligations.
fn add<R: Rulebook>(
    book: &R,
    marks: &mut Marks<R::Pred, R::Rule>,
    o: Obl<R::Pred>,
) -> Result<(), Memory>
    ensures ok { OnOk result (AddsUntaken marks.old.items marks.new.items o) }
    ensures err { OnErr result (marks.new.items ≡ marks.old.items) }
{
    if is_known(book, marks.as_slice(), &o) {
        return Ok(());
    }
    push_new(marks, o)
}

/// The obligation of a call site that supports a predicate.
fn support_at<P: Copy>(site: &(FunNo, NodeNo), q: P) -> Obl<P>
    ensures { result ≡ record { fun = site.now.0; node = site.now.1; cause = Cause.Support q } }
{
    Obl {
        fun: site.0,
        node: site.1,
        cause: Cause::Support(q),
    }
}

/// The obligation of a function by itself at a place.
fn primary_at<P: Copy>(f: FunNo, place: &(NodeNo, u32)) -> Obl<P>
    ensures { result ≡ record { fun = f; node = place.now.0; cause = Cause.Primary place.now.1 } }
{
    Obl {
        fun: f,
        node: place.0,
        cause: Cause::Primary(place.1),
    }
}

/// Makes the supporting obligation at each call site known. After `Memory` some may have been added. Time: the
/// number of call sites times that of known obligations.
pub(crate) fn add_supports<R: Rulebook>(
    book: &R,
    marks: &mut Marks<R::Pred, R::Rule>,
    sites: &[(FunNo, NodeNo)],
    q: R::Pred,
) -> Result<(), Memory>
    ensures ok { OnOk result (AddsEach (supports_of q sites.now) marks.old.items marks.new.items) }
    ensures err { (more : List (Obl R.Pred × Mark R.Pred R.Rule)) × (marks.new.items ≡ marks.old.items ++ more) }
{
    for site in sites {
        add(book, marks, support_at(site, q))?;
    }
    Ok(())
}

/// Makes a function's own obligations known.
fn add_primaries<R: Rulebook>(
    book: &R,
    marks: &mut Marks<R::Pred, R::Rule>,
    f: FunNo,
    places: &[(NodeNo, u32)],
) -> Result<(), Memory>
    requires { places.now ≡ (R.meaning book.now).primaries f }
    ensures { OnOk result (AddsEach (primaries_of (R.meaning book.now) f) marks.old.items marks.new.items) }
{
    for place in places {
        add(book, marks, primary_at(f, place))?;
    }
    Ok(())
}

/// All functions' own obligations, untaken. Time: the square of their number.
pub(crate) fn first_marks<R: Rulebook>(
    alloc: Global,
    book: &R,
) -> Result<Marks<R::Pred, R::Rule>, Memory>
    ensures { IfOk result (λ marks. AddsEach (primaries_below (R.meaning book.now) (R.meaning book.now).functions) [] marks.items) }
{
    let mut marks = Vec::new(alloc);
    for number in 0..book.functions() {
        let f = FunNo(number);
        let places = book.primaries(alloc, f)?;
        add_primaries(book, &mut marks, f, places.as_slice())?;
    }
    Ok(marks)
}
