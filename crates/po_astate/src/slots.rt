// Slots as parts of a state.
ghost use Rattle.std.specs.Prelude.{◌≡◌};
ghost use Rattle.po_bases.specs.General.{IfThere};
ghost use Rattle.po_bases.specs.Filled.{IsFilled};
ghost use Rattle.po_astate.specs.States.{slot_within, join_slots};

use crate::parts::Part;
use po_base::Memory;
use po_bases::{Filled, filled_within, join_filled};
use std::alloc::Global;

/// A slot that isn't entered is below all, and joins as the other's.
impl Part for Option<Filled> {
    ghost form = { IfThere IsFilled };

    ghost within = { slot_within };

    ghost joined = { join_slots };

    fn is_within(&self, other: &Option<Filled>) -> bool {
        match self {
            None => true,
            Some(f) => match other {
                None => false,
                Some(g) => filled_within(f, g),
            },
        }
    }

    fn join_part(&self, alloc: Global, other: &Option<Filled>) -> Result<Option<Filled>, Memory> {
        match self {
            None => match other {
                None => Ok(None),
                Some(g) => Ok(Some(g.share()?)),
            },
            Some(f) => match other {
                None => Ok(Some(f.share()?)),
                Some(g) => Ok(Some(join_filled(alloc, f, g)?)),
            },
        }
    }
}
