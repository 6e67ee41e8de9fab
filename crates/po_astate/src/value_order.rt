// The order and joins of what is known of registers.
ghost use Rattle.std.specs.Prelude.{◌≡◌, IfOk, OnOk};
ghost use Rattle.po_astate.specs.Values as values;
ghost use Rattle.po_astate.specs.Values.{IsValue};

use crate::bases_order::bases_within;
use crate::parts::Part;
use crate::rel::{join_rel, rel_within};
use crate::value::AValue;
use po_arith::join_interval;
use po_base::Memory;
use po_bases::join_bases;
use po_interval::{
    interval_within, join_members, join_of_members_is_least, members_are_ordered, members_within,
};
use std::alloc::Global;

/// Whether all that `b` tells of a register is told by `a`, part by part. Without asking for memory.
pub fn value_within(a: &AValue, b: &AValue) -> bool
    ensures { result ≡ values.value_within a.now b.now }
{
    (a.set || !b.set)
        && (a.nonzero || !b.nonzero)
        && interval_within(&a.range, &b.range)
        && members_within(&a.members, &b.members)
        && rel_within(&a.rel, &b.rel)
        && bases_within(&a.bases, &b.bases)
}

fn join_parts(alloc: Global, a: &AValue, b: &AValue) -> Result<AValue, Memory>
    ensures { IfOk result (λ joined. joined ≡ values.join_values a.now b.now) }
{
    Ok(AValue {
        set: a.set && b.set,
        nonzero: a.nonzero && b.nonzero,
        range: join_interval(&a.range, &b.range),
        members: join_members(alloc, &a.members, &b.members)?,
        rel: join_rel(&a.rel, &b.rel),
        bases: join_bases(alloc, &a.bases, &b.bases)?,
    })
}

/// What both tell of a register, part by part. It asks for no memory where this is one of the two.
pub fn join_values(alloc: Global, a: &AValue, b: &AValue) -> Result<AValue, Memory>
    requires first { IsValue a.now }
    requires second { IsValue b.now }
    ensures { IfOk result (λ joined. joined ≡ values.join_values a.now b.now) }
{
    members_are_ordered();
    join_of_members_is_least();
    if value_within(a, b) {
        return b.share();
    }
    if value_within(b, a) {
        return a.share();
    }
    join_parts(alloc, a, b)
}

impl Part for AValue {
    ghost form = { values.IsValue };

    ghost within = { values.value_within };

    ghost joined = { values.join_values };

    fn is_within(&self, other: &AValue) -> bool {
        value_within(self, other)
    }

    fn join_part(&self, alloc: Global, other: &AValue) -> Result<AValue, Memory> {
        join_values(alloc, self, other)
    }
}
