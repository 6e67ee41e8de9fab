// Whether two declarations of one name agree (C99 6.2.7).
ghost use Rattle.std.specs.Prelude.{◌≡◌, ◌⊎◌, MatchBool, None};
ghost use Rattle.po_types.specs.Types.{Agree};

use po_types::{CType, same};

/// Whether one of two arrays has no size.
fn lacks_a_size(m: Option<u64>, n: Option<u64>) -> bool
    ensures { MatchBool result ((m ≡ None) ⊎ (n ≡ None)) ((m ≡ None) ⊎ (n ≡ None) → ⊥) }
{
    if m.is_none() {
        return true;
    }
    n.is_none()
}

/// Whether two declarations of one name agree: their types are equal, or are arrays of one element type of which one has no size (C99 6.2.7p1, 6.7.5.2p6).
/// Takes time in the length of the shorter type.
pub fn agree(t: &CType, u: &CType) -> bool
    ensures { MatchBool result (Agree t.now u.now) (Agree t.now u.now → ⊥) }
{
    if same(t, u) {
        return true;
    }
    match t {
        CType::Array(element, m) => match u {
            CType::Array(other, n) => {
                if !lacks_a_size(*m, *n) {
                    return false;
                }
                same(element.get(), other.get())
            }
            _ => false,
        },
        _ => false,
    }
}
