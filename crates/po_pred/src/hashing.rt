// Hashes of predicates.
ghost use Rattle.std.specs.Prelude.{◌≡◌, fold};
ghost use Rattle.po_pred.specs.Hashing as hashing;
ghost use Rattle.po_pred.specs.Hashing.{place_writes, pred_writes};
ghost use Rattle.po_pred.specs.OrderLaws.{alike_places, alike_predicates};

use crate::order::{atom_number, atom_rank, operator_rank};
use crate::pred::{Place, Pred};
use crate::view::{View, view_of};
use std::hash::{Hash, Hasher};

/// Equal places feed a hasher the same bytes.
impl Hash for Place {
    ghost hash_input = { place_writes };

    ghost respects_eq = { alike_places place_writes };

    fn hash<H: Hasher>(&self, state: &mut H) {
        atom_rank(self).hash(state);
        atom_number(self).hash(state);
        self.lo.hash(state);
        self.hi.hash(state);
    }
}

fn hash_places<H: Hasher>(view: &View, state: &mut H)
    ensures { state.new ≡ fold H.write state.old (hashing.places_writes view.now) }
{
    view.first.hash(state);
    view.second.hash(state);
    view.third.hash(state);
}

fn hash_numbers<H: Hasher>(view: &View, state: &mut H)
    ensures { state.new ≡ fold H.write state.old (hashing.numbers_writes view.now) }
{
    view.factor.hash(state);
    view.low.hash(state);
    view.high.hash(state);
}

fn hash_view<H: Hasher>(view: &View, state: &mut H)
    ensures { state.new ≡ fold H.write state.old (hashing.view_writes view.now) }
{
    view.kind.hash(state);
    operator_rank(&view.operator).hash(state);
    view.width.hash(state);
    hash_places(view, state);
    hash_numbers(view, state);
}

/// Equal predicates feed a hasher the same bytes. In constant time.
impl Hash for Pred {
    ghost hash_input = { pred_writes };

    ghost respects_eq = { alike_predicates pred_writes };

    fn hash<H: Hasher>(&self, state: &mut H) {
        hash_view(&view_of(self), state);
    }
}
