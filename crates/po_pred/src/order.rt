// The order of predicates.
ghost use Rattle.std.specs.Prelude.{◌≡◌};
ghost use Rattle.std.proofs.Common.{rules};
ghost use Rattle.std.specs.Cmp.{partial_equiv_from_equiv, eq_by_cmp_equiv, partial_order_from_total};
ghost use Rattle.std.specs.Ordering.{eq_by_cmp, as_partial_cmp};
ghost use Rattle.po_pred.specs.Order as order;
ghost use Rattle.po_pred.specs.Order.{place_cmp, pred_cmp};
ghost use Rattle.po_pred.specs.OrderLaws.{place_total, pred_total};

use crate::pred::{Atom, Over, Place, Pred};
use crate::view::{View, view_of};
use std::cmp::Ordering;

/// Whether a place has no atom, a register or a parameter, as a number.
pub(crate) fn atom_rank(place: &Place) -> u8
    ensures { result ≡ order.atom_rank place.now.atom }
{
    match place.atom {
        None => 0,
        Some(Atom::Reg(_)) => 1,
        Some(Atom::Param(_)) => 2,
    }
}

/// The number of the atom of a place, or 0.
pub(crate) fn atom_number(place: &Place) -> u32
    ensures { result ≡ order.atom_number place.now.atom }
{
    match place.atom {
        None => 0,
        Some(Atom::Reg(register)) => register.0,
        Some(Atom::Param(index)) => index,
    }
}

impl PartialEq for Place {
    ghost eq = { eq_by_cmp place_cmp };

    ghost laws = { partial_equiv_from_equiv (eq_by_cmp_equiv place_total) };

    fn eq(&self, other: &Place) -> bool {
        self.cmp(other).is_eq()
    }
}

impl Eq for Place {
    ghost laws = { eq_by_cmp_equiv place_total };
}

impl PartialOrd for Place {
    ghost partial_cmp = { as_partial_cmp place_cmp };

    ghost laws = { partial_order_from_total place_total };

    fn partial_cmp(&self, other: &Place) -> Option<Ordering> {
        Some(self.cmp(other))
    }
}

/// A place without an atom comes first, and a register before a parameter; then the lesser number of the atom
/// decides, then `lo`, then `hi`.
impl Ord for Place {
    ghost cmp = { place_cmp };

    ghost total = { place_total };

    ghost matches_partial_cmp = { Prim.search rules };

    ghost matches_eq = { Prim.search rules };

    fn cmp(&self, other: &Place) -> Ordering {
        atom_rank(self)
            .cmp(&atom_rank(other))
            .then(atom_number(self).cmp(&atom_number(other)))
            .then(self.lo.cmp(&other.lo))
            .then(self.hi.cmp(&other.hi))
    }
}

/// The number of an operator in their order, or 0.
pub(crate) fn operator_rank(op: &Option<Over>) -> u8
    ensures { result ≡ order.operator_rank op.now }
{
    match op {
        None => 0,
        Some(Over::Add) => 1,
        Some(Over::Sub) => 2,
        Some(Over::Mul) => 3,
        Some(Over::Div) => 4,
        Some(Over::Rem) => 5,
        Some(Over::Shl) => 6,
        Some(Over::Neg) => 7,
    }
}

fn cmp_places(a: &View, b: &View) -> Ordering
    ensures { result ≡ order.places_cmp a.now b.now }
{
    a.first
        .cmp(&b.first)
        .then(a.second.cmp(&b.second))
        .then(a.third.cmp(&b.third))
}

fn cmp_numbers(a: &View, b: &View) -> Ordering
    ensures { result ≡ order.numbers_cmp a.now b.now }
{
    a.factor
        .cmp(&b.factor)
        .then(a.low.cmp(&b.low))
        .then(a.high.cmp(&b.high))
}

fn cmp_views(a: &View, b: &View) -> Ordering
    ensures { result ≡ order.view_cmp a.now b.now }
{
    a.kind
        .cmp(&b.kind)
        .then(operator_rank(&a.operator).cmp(&operator_rank(&b.operator)))
        .then(a.width.cmp(&b.width))
        .then(cmp_places(a, b))
        .then(cmp_numbers(a, b))
}

impl PartialEq for Pred {
    ghost eq = { eq_by_cmp pred_cmp };

    ghost laws = { partial_equiv_from_equiv (eq_by_cmp_equiv pred_total) };

    fn eq(&self, other: &Pred) -> bool {
        self.cmp(other).is_eq()
    }
}

impl Eq for Pred {
    ghost laws = { eq_by_cmp_equiv pred_total };
}

impl PartialOrd for Pred {
    ghost partial_cmp = { as_partial_cmp pred_cmp };

    ghost laws = { partial_order_from_total pred_total };

    fn partial_cmp(&self, other: &Pred) -> Option<Ordering> {
        Some(self.cmp(other))
    }
}

/// By kind, then by operator, then by width, then by places in the order of their fields, then by the other numbers.
/// In constant time.
impl Ord for Pred {
    ghost cmp = { pred_cmp };

    ghost total = { pred_total };

    ghost matches_partial_cmp = { Prim.search rules };

    ghost matches_eq = { Prim.search rules };

    fn cmp(&self, other: &Pred) -> Ordering {
        cmp_views(&view_of(self), &view_of(other))
    }
}
