// The values that the places of a predicate may have in a frame.
ghost use Rattle.std.specs.Prelude.{◌≡◌, ◌↔◌, IsTrue, MatchResult, slice_get};
ghost use Rattle.po_memory.specs.Values as values;
ghost use Rattle.po_holds.specs.Choosing.{AreNumbers, ArePointers, AreSecond, SettlesNumber, SettlesPointer, SettlesSecond};

use po_memory::{Frame, Value};
use po_pred::{Atom, Place};

/// All numbers from `base + lo` to `base + hi`, of which there is one at least.
#[derive(Clone, Copy, Debug)]
pub(crate) struct Numbers {
    pub(crate) base: i128,
    pub(crate) lo: i128,
    pub(crate) hi: i128,
}

/// A pointer moved by each number from `lo` to `hi`, of which there is one at least.
#[derive(Clone, Copy, Debug)]
pub(crate) struct Pointers {
    pub(crate) base: Value,
    pub(crate) lo: i128,
    pub(crate) hi: i128,
}

/// The value of a register, where it has one.
pub(crate) fn register_value(f: &Frame, register: usize) -> Option<Value>
    ensures { result ≡ values.register_value f.now register }
{
    match f.regs.get(register) {
        None => None,
        Some(v) => *v,
    }
}

fn argument(f: &Frame, index: usize) -> Option<Value>
    ensures { result ≡ slice_get f.now.args index }
{
    match f.args.get(index) {
        None => None,
        Some(v) => Some(*v),
    }
}

fn atom_value(f: &Frame, a: &Atom) -> Option<Value>
    ensures { result ≡ values.atom_value f.now a.now }
{
    match *a {
        Atom::Reg(r) => register_value(f, r.0 as usize),
        Atom::Param(i) => argument(f, i as usize),
    }
}

fn pointer_base(f: &Frame, a: &Option<Atom>) -> Option<Value>
    ensures { result ≡ values.pointer_base f.now a.now }
{
    match a {
        None => Some(Value::Null),
        Some(a) => atom_value(f, a),
    }
}

fn number_base(f: &Frame, a: &Option<Atom>) -> Option<Value>
    ensures { result ≡ values.number_base f.now a.now }
{
    match a {
        None => Some(Value::Number(0)),
        Some(a) => atom_value(f, a),
    }
}

/// The numbers of a place; or the answer to whatever is asked of each of them, where it has no value or no number.
pub(crate) fn numbers_of(f: &Frame, x: &Place) -> Result<Numbers, bool>
    ensures { MatchResult result (AreNumbers f.now x.now) (SettlesNumber f.now x.now) }
{
    match number_base(f, &x.atom) {
        None => Err(false),
        Some(v) => match v {
            Value::Number(base) => {
                if x.hi < x.lo {
                    return Err(true);
                }
                Ok(Numbers {
                    base,
                    lo: x.lo,
                    hi: x.hi,
                })
            }
            Value::Null => Err(false),
            Value::Pointer { .. } => Err(false),
            Value::Wild => Err(false),
        },
    }
}

/// The numbers of a second operand, which is 0 where there is none; or the answer as of `numbers_of`.
pub(crate) fn second_of(f: &Frame, x: &Option<Place>) -> Result<Numbers, bool>
    ensures { MatchResult result (AreSecond f.now x.now) (SettlesSecond f.now x.now) }
{
    match x {
        None => Ok(Numbers {
            base: 0,
            lo: 0,
            hi: 0,
        }),
        Some(x) => numbers_of(f, x),
    }
}

pub(crate) fn is_pointer(v: &Value) -> bool
    ensures { IsTrue result ↔ values.IsPointer v.now }
{
    match v {
        Value::Number(_) => false,
        Value::Null => true,
        Value::Pointer { .. } => true,
        Value::Wild => true,
    }
}

/// The pointers of a place; or the answer to whatever is asked of each of them, where it has no value or is not moved by
/// any number.
pub(crate) fn pointers_of(f: &Frame, p: &Place) -> Result<Pointers, bool>
    ensures { MatchResult result (ArePointers f.now p.now) (SettlesPointer f.now p.now) }
{
    match pointer_base(f, &p.atom) {
        None => Err(false),
        Some(base) => {
            if !is_pointer(&base) {
                return Err(false);
            }
            if p.hi < p.lo {
                return Err(true);
            }
            Ok(Pointers {
                base,
                lo: p.lo,
                hi: p.hi,
            })
        }
    }
}
