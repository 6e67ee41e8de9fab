ghost use Rattle.std.specs.Prelude.{◌≡◌, ◌||◌, ◌==◌, ◌^◌, ◌-ℤ◌, pos, neg_ℤ};
ghost use Rattle.po_app.specs.Delegation.{argument_place as place_of_argument, range_place as place_of_range, entry_place as place_at_entry, entry_second as second_at_entry, entry_predicate as predicate_at_entry, from_to, is_allowed as is_allowed_place, names_parameter as names_a_parameter, fits_parameters as fits_the_parameters, is_assumable as is_assumable_predicate, delegated as delegated_to};
ghost use Rattle.po_app.specs.Ranges.{IsSmallPlace, IsSmallSecond, IsSmallPredicate};

use crate::discharge::range_of;
use po_pred::{Atom, Place, Pred, weight};

/// The greatest weight of an assumption.
const MOST_WEIGHT: u32 = 12;

/// The place of a parameter that still has its argument's value.
fn argument_place(parameter: u32, place: &Place) -> Place
    ensures { result ≡ place_of_argument parameter place.now }
{
    Place {
        atom: Some(Atom::Param(parameter)),
        lo: place.lo,
        hi: place.hi,
    }
}

/// The place of a register that may have every int.
fn range_place(place: &Place) -> Place
    requires { IsSmallPlace place.now }
    ensures { result ≡ place_of_range place.now }
{
    let range = range_of(place);
    Place {
        atom: None,
        lo: range.lo,
        hi: range.hi,
    }
}

/// What a place is at the entry of a function of so many parameters.
fn entry_place(params: u32, place: &Place) -> Place
    requires { IsSmallPlace place.now }
    ensures { result ≡ place_at_entry params place.now }
{
    match place.atom {
        None => *place,
        Some(Atom::Param(_)) => *place,
        Some(Atom::Reg(register)) => {
            if register.0 < params {
                return argument_place(register.0, place);
            }
            range_place(place)
        }
    }
}

fn entry_second(params: u32, place: &Option<Place>) -> Option<Place>
    requires { IsSmallSecond place.now }
    ensures { result ≡ second_at_entry params place.now }
{
    match place {
        None => None,
        Some(place) => Some(entry_place(params, place)),
    }
}

/// What a predicate is at the entry of a function of so many parameters. In constant time.
pub(crate) fn entry_predicate(params: u32, predicate: &Pred) -> Pred
    requires { IsSmallPredicate predicate.now }
    ensures { result ≡ predicate_at_entry params predicate.now }
{
    match predicate {
        Pred::Nonzero { x } => Pred::Nonzero {
            x: entry_place(params, x),
        },
        Pred::NoOver { op, bits, a, b } => Pred::NoOver {
            op: *op,
            bits: *bits,
            a: entry_place(params, a),
            b: entry_second(params, b),
        },
        _ => *predicate,
    }
}

/// Whether the numbers of a place are those that an assumption may have, -2^63 to 2^64-1.
fn has_numbers(place: &Place) -> bool
    ensures { result ≡ from_to (neg_ℤ (pos (2 ^ 63))) (pos (2 ^ 64) -ℤ pos 1) place.now }
{
    -9_223_372_036_854_775_808 <= place.lo
        && place.lo <= place.hi
        && place.hi <= 18_446_744_073_709_551_615
}

/// Whether the numbers of a place are offsets that an assumption may have, -1,024 to 1,024.
fn has_offsets(place: &Place) -> bool
    ensures { result ≡ from_to (neg_ℤ (pos 1024)) (pos 1024) place.now }
{
    -1024 <= place.lo && place.lo <= place.hi && place.hi <= 1024
}

fn is_allowed(params: u32, place: &Place) -> bool
    ensures { result ≡ is_allowed_place params place.now }
{
    match place.atom {
        None => has_numbers(place),
        Some(Atom::Reg(_)) => false,
        Some(Atom::Param(parameter)) => parameter < params && has_offsets(place),
    }
}

fn names_parameter(place: &Place) -> bool
    ensures { result ≡ names_a_parameter place.now.atom }
{
    match place.atom {
        None => false,
        Some(Atom::Reg(_)) => false,
        Some(Atom::Param(_)) => true,
    }
}

fn either_names_parameter(a: &Place, b: &Place) -> bool
    ensures { result ≡ (names_a_parameter a.now.atom || names_a_parameter b.now.atom) }
{
    names_parameter(a) || names_parameter(b)
}

fn is_width(bits: u8) -> bool
    ensures { result ≡ (bits == 32 || bits == 64) }
{
    bits == 32 || bits == 64
}

/// Whether the places are allowed, and a parameter is among them.
fn fits_parameters(params: u32, predicate: &Pred) -> bool
    ensures { result ≡ fits_the_parameters params predicate.now }
{
    match predicate {
        Pred::Nonzero { x } => is_allowed(params, x) && names_parameter(x),
        Pred::NoOver { b: None, .. } => false,
        Pred::NoOver {
            bits,
            a,
            b: Some(b),
            ..
        } => {
            is_allowed(params, a)
                && is_allowed(params, b)
                && either_names_parameter(a, b)
                && is_width(*bits)
        }
        _ => false,
    }
}

/// Whether a function of so many parameters may assume a predicate. In constant time.
pub(crate) fn is_assumable(params: u32, predicate: &Pred) -> bool
    ensures { result ≡ is_assumable_predicate params predicate.now }
{
    fits_parameters(params, predicate) && weight(predicate) <= MOST_WEIGHT
}

/// To what a predicate of a function of so many parameters is delegated, where it can be. In constant time.
pub(crate) fn delegated(params: u32, predicate: &Pred) -> Option<Pred>
    requires { IsSmallPredicate predicate.now }
    ensures { result ≡ delegated_to params predicate.now }
{
    let entry = entry_predicate(params, predicate);
    if is_assumable(params, &entry) {
        return Some(entry);
    }
    None
}
