// The values of operands.
ghost use Rattle.std.specs.Prelude.{◌≡◌, ℤ, IfOk};
ghost use Rattle.po_memory.specs.Values as values;
ghost use Rattle.po_meaning.specs.Operands as operands;
ghost use Rattle.po_meaning.specs.Operands.{Is};
ghost use Rattle.po_operate.specs.Finding.{Finds};

use po_base::{Opnd, RegNo};
use po_ir::Ty;
use po_memory::{Frame, Value};

/// The value of a register, where it has one.
pub fn register_value(frame: &Frame, r: RegNo) -> Option<Value>
    ensures { result ≡ values.register_value frame.now r.0 }
{
    match frame.regs.get(r.0 as usize) {
        None => None,
        Some(value) => *value,
    }
}

/// The value of an operand that is a number.
pub fn number_value(frame: &Frame, a: &Opnd) -> Option<Value>
    ensures { result ≡ operands.number_value frame.now a.now }
{
    match *a {
        Opnd::Reg(r) => register_value(frame, r),
        Opnd::Num(n) => Some(Value::Number(n)),
    }
}

/// The value of an operand that is a pointer, where the number 0 is the null pointer (C99 6.3.2.3p3).
pub fn pointer_value(frame: &Frame, a: &Opnd) -> Option<Value>
    ensures { result ≡ operands.pointer_value frame.now a.now }
{
    match *a {
        Opnd::Reg(r) => register_value(frame, r),
        Opnd::Num(_) => Some(Value::Null),
    }
}

/// The value of an operand that is used at a type.
pub fn value_at(frame: &Frame, ty: Ty, a: &Opnd) -> Option<Value>
    ensures { result ≡ operands.value_at frame.now ty a.now }
{
    match ty {
        Ty::Int(_) => number_value(frame, a),
        Ty::Ptr => pointer_value(frame, a),
    }
}

/// The number that an operand is.
pub(crate) fn number(frame: &Frame, a: &Opnd) -> Option<i128>
    ensures { Finds result (Is frame.now a.now) }
{
    match number_value(frame, a) {
        None => None,
        Some(value) => match value {
            Value::Number(n) => Some(n),
            Value::Null => None,
            Value::Pointer { .. } => None,
            Value::Wild => None,
        },
    }
}
