// What a pointer is an offset from.
ghost use Rattle.std.specs.Prelude.{◌≡◌};
ghost use Rattle.std.proofs.Common.{rules};
ghost use Rattle.std.specs.Cmp.{partial_equiv_from_equiv, eq_by_cmp_equiv, partial_order_from_total};
ghost use Rattle.std.specs.Ordering.{eq_by_cmp, as_partial_cmp};
ghost use Rattle.po_bases.specs.Base as order;
ghost use Rattle.po_bases.specs.Base.{base_cmp, base_total};

use po_base::{GlobalNo, NodeNo, SlotNo, StrNo};
use std::cmp::Ordering;

/// What a pointer is an offset from.
#[derive(Clone, Copy, Debug)]
pub enum Base {
    /// The argument of this number at the function's entry; null where the argument is null.
    Param(u32),
    /// The block of a slot of the function.
    Slot(SlotNo),
    /// The block of a global object.
    Global(GlobalNo),
    /// The block of a string literal.
    Literal(StrNo),
    /// The block that the malloc or calloc at this node made last.
    Heap(NodeNo),
    /// Null.
    Null,
}

fn kind(base: Base) -> u8
    ensures { result ≡ order.kind base }
{
    match base {
        Base::Param(_) => 0,
        Base::Slot(_) => 1,
        Base::Global(_) => 2,
        Base::Literal(_) => 3,
        Base::Heap(_) => 4,
        Base::Null => 5,
    }
}

fn number(base: Base) -> u32
    ensures { result ≡ order.number base }
{
    match base {
        Base::Param(index) => index,
        Base::Slot(slot) => slot.0,
        Base::Global(global) => global.0,
        Base::Literal(literal) => literal.0,
        Base::Heap(node) => node.0,
        Base::Null => 0,
    }
}

impl PartialEq for Base {
    ghost eq = { eq_by_cmp base_cmp };

    ghost laws = { partial_equiv_from_equiv (eq_by_cmp_equiv base_total) };

    fn eq(&self, other: &Base) -> bool {
        self.cmp(other).is_eq()
    }
}

impl Eq for Base {
    ghost laws = { eq_by_cmp_equiv base_total };
}

impl PartialOrd for Base {
    ghost partial_cmp = { as_partial_cmp base_cmp };

    ghost laws = { partial_order_from_total base_total };

    fn partial_cmp(&self, other: &Base) -> Option<Ordering> {
        Some(self.cmp(other))
    }
}

/// By kind, in the order of the variants, and then by number.
impl Ord for Base {
    ghost cmp = { base_cmp };

    ghost total = { base_total };

    ghost matches_partial_cmp = { Prim.search rules };

    ghost matches_eq = { Prim.search rules };

    fn cmp(&self, other: &Base) -> Ordering {
        kind(*self)
            .cmp(&kind(*other))
            .then(number(*self).cmp(&number(*other)))
    }
}
