// What all kinds of predicates have in common.
ghost use Rattle.std.specs.Prelude.{◌≡◌};
ghost use Rattle.po_pred.specs.View as views;

use crate::pred::{Over, Place, Pred, Why};

/// What a predicate is of, whatever its kind: the number of the kind, its operator and width, its places in the order
/// of their fields, and its other numbers. Predicates with equal views are the same.
#[derive(Clone, Copy, Debug)]
pub struct View {
    /// The kind's number in the order of kinds, from 0.
    pub kind: u8,
    pub operator: Option<Over>,
    /// The width of the operator's type in bits.
    pub width: u8,
    pub first: Option<Place>,
    pub second: Option<Place>,
    pub third: Option<Place>,
    /// By what the places behind the first are multiplied; 1 where the kind has no factor.
    pub factor: i64,
    /// The first of the other numbers, or 0.
    pub low: i128,
    /// The second of the other numbers, or 0.
    pub high: i128,
}

/// A kind alone.
fn bare(kind: u8) -> View
    ensures { result ≡ views.bare kind }
{
    View {
        kind,
        operator: None,
        width: 0,
        first: None,
        second: None,
        third: None,
        factor: 1,
        low: 0,
        high: 0,
    }
}

fn of_one(kind: u8, first: &Place) -> View
    ensures { result ≡ views.of_one kind first.now }
{
    View {
        first: Some(*first),
        ..bare(kind)
    }
}

fn of_two(kind: u8, first: &Place, second: &Place) -> View
    ensures { result ≡ views.of_two kind first.now second.now }
{
    View {
        second: Some(*second),
        ..of_one(kind, first)
    }
}

fn of_three(kind: u8, first: &Place, second: &Place, third: &Place) -> View
    ensures { result ≡ views.of_three kind first.now second.now third.now }
{
    View {
        third: Some(*third),
        ..of_two(kind, first, second)
    }
}

/// A reason's number in the order of reasons.
fn why_number(why: Why) -> i128
    ensures { result ≡ views.why_number why }
{
    match why {
        Why::Unread => 0,
        Why::End => 1,
        Why::Extern => 2,
    }
}

/// The view of a predicate.
pub fn view_of(predicate: &Pred) -> View
    ensures { result ≡ views.view_of predicate.now }
{
    match predicate {
        Pred::NotNull { p } => of_one(0, p),
        Pred::Live { p } => of_one(1, p),
        Pred::Span { p, factor, lo, hi } => View {
            factor: *factor,
            ..of_three(2, p, lo, hi)
        },
        Pred::Filled { p, factor, lo, hi } => View {
            factor: *factor,
            ..of_three(3, p, lo, hi)
        },
        Pred::RegSet { v } => View {
            low: i128::from(v.0),
            ..bare(4)
        },
        Pred::Writable { p } => of_one(5, p),
        Pred::Nonzero { x } => of_one(6, x),
        Pred::NoOver { op, bits, a, b } => View {
            operator: Some(*op),
            width: *bits,
            second: *b,
            ..of_one(7, a)
        },
        Pred::IntIn { x, lo, hi } => View {
            low: *lo,
            high: *hi,
            ..of_one(8, x)
        },
        Pred::Aligned { p, a } => View {
            low: i128::from(*a),
            ..of_one(9, p)
        },
        Pred::SameBlock { p, q } => of_two(10, p, q),
        Pred::HeapStart { p } => of_one(11, p),
        Pred::Terminated { p } => of_one(12, p),
        Pred::Apart { p, q, n } => of_three(13, p, q, n),
        Pred::RoomFor { p, q } => of_two(14, p, q),
        Pred::Never { why } => View {
            low: why_number(*why),
            ..bare(15)
        },
    }
}
