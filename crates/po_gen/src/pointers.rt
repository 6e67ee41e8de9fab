// What moves, comparisons and accesses by pointers ask (C99 6.5.3.2, 6.5.6, 6.5.8).
ghost use Rattle.std.specs.Prelude.{◌≡◌, ◌++◌, IfOk, OnOk};
ghost use Rattle.po_gen.specs.Asks as rules;

use crate::places::number;
use po_base::{List, Memory, Op};
use po_ir::Access;
use po_pred::{Place, Pred};
use std::alloc::Global;

fn spans(p: &Place, size: u64) -> Pred
    ensures { result ≡ rules.spans p.now size }
{
    Pred::Span {
        p: *p,
        factor: 1,
        lo: number(0),
        hi: number(i128::from(size)),
    }
}

fn is_filled(p: &Place, size: u64) -> Pred
    ensures { result ≡ rules.is_filled p.now size }
{
    Pred::Filled {
        p: *p,
        factor: 1,
        lo: number(0),
        hi: number(i128::from(size)),
    }
}

fn add_alignment(list: &mut List<Pred>, p: &Place, align: u64) -> Result<(), Memory>
    ensures { OnOk result (list.new ≡ list.old ++ rules.alignment p.now align) }
{
    if align > 1 {
        list.push(Pred::Aligned { p: *p, a: align })?;
    }
    Ok(())
}

/// What a move of a pointer asks. In constant time.
pub(crate) fn moving(
    alloc: Global,
    p: &Place,
    index: &Place,
    factor: i64,
) -> Result<List<Pred>, Memory>
    ensures { IfOk result (λ list. list ≡ rules.move p.now index.now factor) }
{
    let mut list = List::new(alloc);
    list.push(Pred::NotNull { p: *p })?;
    list.push(Pred::Live { p: *p })?;
    list.push(Pred::Span {
        p: *p,
        factor,
        lo: *index,
        hi: *index,
    })?;
    Ok(list)
}

/// What two pointers that have to point into one object ask. In constant time.
pub(crate) fn pair(alloc: Global, a: &Place, b: &Place) -> Result<List<Pred>, Memory>
    ensures { IfOk result (λ list. list ≡ rules.pair a.now b.now) }
{
    let mut list = List::new(alloc);
    list.push(Pred::NotNull { p: *a })?;
    list.push(Pred::NotNull { p: *b })?;
    list.push(Pred::Live { p: *a })?;
    list.push(Pred::Live { p: *b })?;
    list.push(Pred::SameBlock { p: *a, q: *b })?;
    Ok(list)
}

/// What a comparison of pointers asks. In constant time.
pub(crate) fn comparison(alloc: Global, op: Op, a: &Place, b: &Place) -> Result<List<Pred>, Memory>
    ensures { IfOk result (λ list. list ≡ rules.comparison op a.now b.now) }
{
    match op {
        Op::Lt | Op::Le | Op::Gt | Op::Ge => pair(alloc, a, b),
        _ => Ok(List::new(alloc)),
    }
}

fn object(alloc: Global, p: &Place, access: &Access) -> Result<List<Pred>, Memory>
    ensures { IfOk result (λ list. list ≡ rules.object p.now access.now.size access.now.align) }
{
    let mut list = List::new(alloc);
    list.push(Pred::NotNull { p: *p })?;
    list.push(Pred::Live { p: *p })?;
    list.push(spans(p, access.size))?;
    add_alignment(&mut list, p, access.align)?;
    Ok(list)
}

/// What a reading access asks. In constant time.
pub(crate) fn load(alloc: Global, p: &Place, access: &Access) -> Result<List<Pred>, Memory>
    ensures { IfOk result (λ list. list ≡ rules.load p.now access.now) }
{
    let mut list = object(alloc, p, access)?;
    list.push(is_filled(p, access.size))?;
    Ok(list)
}

/// What a writing access asks. In constant time.
pub(crate) fn store(alloc: Global, p: &Place, access: &Access) -> Result<List<Pred>, Memory>
    ensures { IfOk result (λ list. list ≡ rules.store p.now access.now) }
{
    let mut list = object(alloc, p, access)?;
    list.push(Pred::Writable { p: *p })?;
    Ok(list)
}

/// What two objects of a copy ask, before their alignments.
fn objects(alloc: Global, p: &Place, q: &Place, size: u64) -> Result<List<Pred>, Memory>
    ensures { IfOk result (λ list. list ≡ rules.objects p.now q.now size) }
{
    let mut list = List::new(alloc);
    list.push(Pred::NotNull { p: *p })?;
    list.push(Pred::NotNull { p: *q })?;
    list.push(Pred::Live { p: *p })?;
    list.push(Pred::Live { p: *q })?;
    list.push(spans(p, size))?;
    list.push(spans(q, size))?;
    Ok(list)
}

/// What a copy from `q` to `p` asks. In constant time.
pub(crate) fn copy(
    alloc: Global,
    p: &Place,
    q: &Place,
    size: u64,
    align: u64,
) -> Result<List<Pred>, Memory>
    ensures { IfOk result (λ list. list ≡ rules.copy p.now q.now size align) }
{
    let mut list = objects(alloc, p, q, size)?;
    add_alignment(&mut list, p, align)?;
    add_alignment(&mut list, q, align)?;
    list.push(Pred::Writable { p: *p })?;
    Ok(list)
}
