// Obligations that become known: those of all functions at first, and those of call sites.
ghost use Rattle.std.specs.Prelude.{◌≡◌, ◌<◌, [], ℕ, map, IfOk, OnOk, OnErr};
ghost use Rattle.std.specs.List.{Contains};
ghost use Rattle.po_core.specs.Core.{AreApart};
ghost use Rattle.po_core.specs.declared.obl.Cause.TheVariants as Cause;
ghost use Rattle.po_core.specs.declared.obl.Obl.{Obl};
ghost use Rattle.po_marks.specs.Known.{AddsEach, primaries_below, primaries_of, supports_of};
ghost use Rattle.po_marks.specs.Waiting.{Adds, AddsInTurn, AreWaiting, KeepsHolds, NoneIsHeld};

use crate::entries::{insert_new, is_known, make_room};
use crate::line::line_up;
use crate::marks::{Marks, counted};
use crate::queue::{is_ready, push_fresh, queue_at};
use crate::undoing::forget;
use po_base::{FunNo, Memory, NodeNo};
use po_core::{Cause, Obl, Rulebook};
use std::alloc::Global;

/// The obligation of a call site that supports a predicate.
fn support_at<P: Copy>(site: &(FunNo, NodeNo), q: P) -> Obl<P>
    ensures { result ≡ record { fun = site.now.0; node = site.now.1; cause = Cause.Support q } }
{
    Obl {
        fun: site.0,
        node: site.1,
        cause: Cause::Support(q),
    }
}

/// The obligation of a function by itself at a place.
fn primary_at<P: Copy>(f: FunNo, place: &(NodeNo, u32)) -> Obl<P>
    ensures { result ≡ record { fun = f; node = place.now.0; cause = Cause.Primary place.now.1 } }
{
    Obl {
        fun: f,
        node: place.0,
        cause: Cause::Primary(place.1),
    }
}

/// Makes an obligation known, untaken and waiting in its file, unless it is known; the file stands in line from then on where it can
/// be taken. After `Memory` nothing has changed. In constant time on the average.
fn add<R: Rulebook>(
    book: &R,
    marks: &mut Marks<R::Pred, R::Rule>,
    o: Obl<R::Pred>,
) -> Result<(), Memory>
    requires there { o.fun.0 < (R.meaning book.now).functions }
    requires waiting { AreWaiting (R.meaning book.now) marks.old }
    requires apart { AreApart (map (λ e. e.0) marks.old.items) }
    ensures ok { OnOk result (Adds (R.meaning book.now) o marks.old marks.new) }
    ensures err { OnErr result (marks.new ≡ marks.old) }
    ensures waiting { AreWaiting (R.meaning book.now) marks.new }
    ensures apart { AreApart (map (λ e. e.0) marks.new.items) }
{
    if is_known(book, &marks.known, &o) {
        return Ok(());
    }
    let file = book.file_of(o.fun);
    let before = is_ready(queue_at(&marks.queues, file));
    make_room(&mut marks.known)?;
    push_fresh(&mut marks.queues, file, o)?;
    insert_new(book, &mut marks.known, o);
    let now = is_ready(queue_at(&marks.queues, file));
    line_up(&mut marks.line, file, before, now);
    marks.untaken = counted(marks.untaken, 1, marks.known.len());
    Ok(())
}

/// Makes the supporting obligation at each call site known. After `Memory` nothing has changed. Time: the number of call sites, on the
/// average.
pub fn add_supports<R: Rulebook>(
    book: &R,
    marks: &mut Marks<R::Pred, R::Rule>,
    sites: &[(FunNo, NodeNo)],
    q: R::Pred,
) -> Result<(), Memory>
    requires there { (f : FunNo) (n : NodeNo) → Contains sites.now (f, n) → f.0 < (R.meaning book.now).functions }
    requires waiting { AreWaiting (R.meaning book.now) marks.old }
    requires apart { AreApart (map (λ e. e.0) marks.old.items) }
    ensures ok { OnOk result (AddsEach (supports_of q sites.now) marks.old.items marks.new.items) }
    ensures err { OnErr result (marks.new ≡ marks.old) }
    ensures waiting { AreWaiting (R.meaning book.now) marks.new }
    ensures holds { KeepsHolds marks.old.queues marks.new.queues }
{
    let known = marks.known.len();
    match add_each_support(book, marks, sites, q) {
        Ok(()) => Ok(()),
        Err(Memory) => {
            forget(book, marks, known);
            Err(Memory)
        }
    }
}

/// Makes the supporting obligation at each call site known. After `Memory` some may have been added.
fn add_each_support<R: Rulebook>(
    book: &R,
    marks: &mut Marks<R::Pred, R::Rule>,
    sites: &[(FunNo, NodeNo)],
    q: R::Pred,
) -> Result<(), Memory>
    requires there { (f : FunNo) (n : NodeNo) → Contains sites.now (f, n) → f.0 < (R.meaning book.now).functions }
    requires waiting { AreWaiting (R.meaning book.now) marks.old }
    requires apart { AreApart (map (λ e. e.0) marks.old.items) }
    ensures ok { OnOk result (AddsEach (supports_of q sites.now) marks.old.items marks.new.items) }
    ensures turn { (n : ℕ) × AddsInTurn (R.meaning book.now) n marks.old marks.new }
    ensures waiting { AreWaiting (R.meaning book.now) marks.new }
{
    for site in sites {
        add(book, marks, support_at(site, q))?;
    }
    Ok(())
}

/// Makes a function's own obligations known.
fn add_primaries<R: Rulebook>(
    book: &R,
    marks: &mut Marks<R::Pred, R::Rule>,
    f: FunNo,
    places: &[(NodeNo, u32)],
) -> Result<(), Memory>
    requires there { f.0 < (R.meaning book.now).functions }
    requires places { places.now ≡ (R.meaning book.now).primaries f }
    requires waiting { AreWaiting (R.meaning book.now) marks.old }
    requires apart { AreApart (map (λ e. e.0) marks.old.items) }
    ensures ok { OnOk result (AddsEach (primaries_of (R.meaning book.now) f) marks.old.items marks.new.items) }
    ensures waiting { AreWaiting (R.meaning book.now) marks.new }
    ensures apart { AreApart (map (λ e. e.0) marks.new.items) }
    ensures holds { KeepsHolds marks.old.queues marks.new.queues }
{
    for place in places {
        add(book, marks, primary_at(f, place))?;
    }
    Ok(())
}

/// All functions' own obligations, untaken and waiting. Time: their number, on the average, and that of files.
pub fn first_marks<R: Rulebook>(alloc: Global, book: &R) -> Result<Marks<R::Pred, R::Rule>, Memory>
    ensures items { IfOk result (λ marks. AddsEach (primaries_below (R.meaning book.now) (R.meaning book.now).functions) [] marks.items) }
    ensures waiting { IfOk result (AreWaiting (R.meaning book.now)) }
    ensures none_held { IfOk result (λ marks. NoneIsHeld marks.queues) }
{
    let mut marks = Marks::new(alloc, book.files())?;
    for number in 0..book.functions() {
        let f = FunNo(number);
        let places = book.primaries(alloc, f)?;
        add_primaries(book, &mut marks, f, places.as_slice())?;
    }
    Ok(marks)
}
