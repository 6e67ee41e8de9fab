// The trait of the parts of a state, and lists of them.
ghost use Rattle.std.specs.Prelude.{◌≡◌, length, IfOk};
ghost use Rattle.std.specs.List.{All};
ghost use Rattle.po_bases.specs.General.{each_join};
ghost use Rattle.po_astate.specs.Each as each;

use po_base::{List, Memory};
use std::alloc::Global;

/// What a state knows of a register, or of a slot.
pub trait Part {
    ghost use Rattle.std.specs.Prelude.{Bool};

    /// It isn't empty.
    ghost form: { Self → Type 0 };
    /// Whether one is below another one.
    ghost within: { Self → Self → Bool };
    /// The join of two.
    ghost joined: { Self → Self → Self };

    /// Whether one is below another one.
    fn is_within(&self, other: &Self) -> bool
        ensures { result ≡ within self.now other.now };

    /// The join of two.
    fn join_part(&self, alloc: Global, other: &Self) -> Result<Self, Memory>
    where
        Self: Sized,
        requires first { form self.now }
        requires second { form other.now }
        ensures { IfOk result (λ part. part ≡ joined self.now other.now) };
}

/// Whether of two lists each item is below the other's at its place.
pub fn each_within<P: Part>(xs: &[P], ys: &[P]) -> bool
    ensures { result ≡ each.each_within P.within xs.now ys.now }
{
    if xs.len() != ys.len() {
        return false;
    }
    for i in 0..xs.len() {
        if !xs[i].is_within(&ys[i]) {
            return false;
        }
    }
    true
}

/// The joins of the items of two lists, place by place.
pub fn join_each<P: Part + Drop>(alloc: Global, xs: &[P], ys: &[P]) -> Result<List<P>, Memory>
    requires same { length xs.now ≡ length ys.now }
    requires first { All P.form xs.now }
    requires second { All P.form ys.now }
    ensures { IfOk result (λ list. list ≡ each_join P.joined xs.now ys.now) }
{
    let mut list = List::new(alloc);
    for i in 0..xs.len() {
        list.push(xs[i].join_part(alloc, &ys[i])?)?;
    }
    Ok(list)
}
