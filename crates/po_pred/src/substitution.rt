// Arguments put into the predicates of a called function.
ghost use Rattle.std.specs.Prelude.{◌≡◌, All, Option, option_map, length};
ghost use Rattle.po_pred.specs.View.{places_of};
ghost use Rattle.po_pred.specs.Subst as substs;
ghost use Rattle.po_pred.specs.Subst.{IsCounted, IsCountedOperand, IsOpenTo, moved_to, pointed_to, put_in, put_place};

use crate::pred::{Atom, Place, Pred};
use po_base::Opnd;

/// The place of an argument, moved by the numbers of a parameter's place.
fn moved(argument: &Opnd, place: &Place) -> Place
    requires argument { IsCountedOperand argument.now }
    requires low { IsCounted place.now.lo }
    requires high { IsCounted place.now.hi }
    ensures { result ≡ moved_to argument.now place.now }
{
    match *argument {
        Opnd::Reg(register) => Place {
            atom: Some(Atom::Reg(register)),
            lo: place.lo,
            hi: place.hi,
        },
        Opnd::Num(number) => Place {
            atom: None,
            lo: place.lo + number,
            hi: place.hi + number,
        },
    }
}

/// The pointer that an argument is, moved by the numbers of a parameter's place. Null isn't moved.
fn pointed(argument: &Opnd, place: &Place) -> Place
    ensures { result ≡ pointed_to argument.now place.now }
{
    match *argument {
        Opnd::Reg(register) => Place {
            atom: Some(Atom::Reg(register)),
            lo: place.lo,
            hi: place.hi,
        },
        Opnd::Num(_) => Place {
            atom: None,
            lo: 0,
            hi: 0,
        },
    }
}

fn put(place: &Place, args: &[Opnd]) -> Place
    requires place { IsOpenTo (length args.now) place.now }
    requires args { All IsCountedOperand args.now }
    ensures { result ≡ put_place args.now place.now }
{
    match place.atom {
        Some(Atom::Param(index)) => moved(&args[index as usize], place),
        _ => *place,
    }
}

fn put_pointer(place: &Place, args: &[Opnd]) -> Place
    requires { IsOpenTo (length args.now) place.now }
    ensures { result ≡ substs.put_pointer args.now place.now }
{
    match place.atom {
        Some(Atom::Param(index)) => pointed(&args[index as usize], place),
        _ => *place,
    }
}

/// The predicate with each parameter's place put on its argument: a register's place keeps the offsets, a number is
/// added to them, and a number in a pointer's place, which can only be 0, makes it the null pointer. The parameters
/// stand among the arguments, and all numbers are at most 2^64 in size. In constant time.
pub fn subst(predicate: &Pred, args: &[Opnd]) -> Pred
    requires places { All (IsOpenTo (length args.now)) (places_of predicate.now) }
    requires args { All IsCountedOperand args.now }
    ensures { result ≡ put_in predicate.now args.now }
{
    match predicate {
        Pred::NotNull { p } => Pred::NotNull {
            p: put_pointer(p, args),
        },
        Pred::Live { p } => Pred::Live {
            p: put_pointer(p, args),
        },
        Pred::Span { p, factor, lo, hi } => Pred::Span {
            p: put_pointer(p, args),
            factor: *factor,
            lo: put(lo, args),
            hi: put(hi, args),
        },
        Pred::Filled { p, factor, lo, hi } => Pred::Filled {
            p: put_pointer(p, args),
            factor: *factor,
            lo: put(lo, args),
            hi: put(hi, args),
        },
        Pred::RegSet { v } => Pred::RegSet { v: *v },
        Pred::Writable { p } => Pred::Writable {
            p: put_pointer(p, args),
        },
        Pred::Nonzero { x } => Pred::Nonzero { x: put(x, args) },
        Pred::NoOver { op, bits, a, b } => Pred::NoOver {
            op: *op,
            bits: *bits,
            a: put(a, args),
            b: match b {
                None => None,
                Some(place) => Some(put(place, args)),
            },
        },
        Pred::IntIn { x, lo, hi } => Pred::IntIn {
            x: put(x, args),
            lo: *lo,
            hi: *hi,
        },
        Pred::Aligned { p, a } => Pred::Aligned {
            p: put_pointer(p, args),
            a: *a,
        },
        Pred::SameBlock { p, q } => Pred::SameBlock {
            p: put_pointer(p, args),
            q: put_pointer(q, args),
        },
        Pred::HeapStart { p } => Pred::HeapStart {
            p: put_pointer(p, args),
        },
        Pred::Terminated { p } => Pred::Terminated {
            p: put_pointer(p, args),
        },
        Pred::Apart { p, q, n } => Pred::Apart {
            p: put_pointer(p, args),
            q: put_pointer(q, args),
            n: put(n, args),
        },
        Pred::RoomFor { p, q } => Pred::RoomFor {
            p: put_pointer(p, args),
            q: put_pointer(q, args),
        },
        Pred::Never { why } => Pred::Never { why: *why },
    }
}
