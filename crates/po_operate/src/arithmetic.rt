// Operators, tests and conversions on values (C99 6.3, 6.5).
ghost use Rattle.std.specs.Prelude.{◌≡◌, ℤ, Some, IfOk};
ghost use Rattle.po_arith.specs.Types.{IsIntType};
ghost use Rattle.po_interval.specs.Results as results;
ghost use Rattle.po_ir.specs.declared.instr.Ty.TheVariants as kind;
ghost use Rattle.po_ir.specs.IntTypes.{IsTypeOfTarget};
ghost use Rattle.po_ir.specs.Types.{TypeIs};
ghost use Rattle.po_memory.specs.declared.value.Value.TheVariants as value;
ghost use Rattle.po_meaning.specs.Local.{Computes, Converts, Tests};
ghost use Rattle.po_meaning.specs.Operands.{Is, as_value};
ghost use Rattle.po_operate.specs.Finding.{Finds};
ghost use Rattle.po_operate.specs.Ready.{AreOperands, AreOperandsAt, IsNumberOf};
ghost use Rattle.po_operate.specs.Values.{IsConstant, Negates};

use crate::operands::{number, pointer_value};
use crate::pointers::{compare, compares};
use po_arith::IntType;
use po_base::{Op, Opnd, RegNo, UnOp};
use po_interval::{binary, conv, unary};
use po_ir::{Graph, Ty};
use po_memory::{Frame, Value};

/// A number as a value of the type, where 0 is the null pointer (C99 6.3.2.3p3).
fn typed(ty: Ty, n: i128) -> Value
    ensures { result ≡ as_value ty n }
{
    match ty {
        Ty::Int(_) => Value::Number(n),
        Ty::Ptr => Value::Null,
    }
}

/// A number as a value of the register's type.
pub(crate) fn constant(g: &Graph, to: RegNo, n: i128) -> Option<Value>
    ensures { Finds result (IsConstant g.now to n) }
{
    match g.regs.get(to.0 as usize) {
        None => None,
        Some(register) => Some(typed(register.ty, n)),
    }
}

/// Whether a test of two numbers holds.
fn test_numbers(op: Op, t: IntType, frame: &Frame, a: &Opnd, b: &Opnd) -> Option<bool>
    ensures { Finds result (Tests op (kind.Int t) frame.now a.now b.now) }
{
    match number(frame, a) {
        None => None,
        Some(v) => match number(frame, b) {
            None => None,
            Some(w) => Some(compares(op, v, w)),
        },
    }
}

/// Whether a test of two pointers holds, of the results that it may have.
fn test_pointers(op: Op, frame: &Frame, a: &Opnd, b: &Opnd) -> Option<bool>
    ensures { Finds result (Tests op kind.Ptr frame.now a.now b.now) }
{
    match pointer_value(frame, a) {
        None => None,
        Some(v) => match pointer_value(frame, b) {
            None => None,
            Some(w) => compare(op, &v, &w),
        },
    }
}

/// Whether a test holds, of the results that it may have.
pub(crate) fn tested(op: Op, ty: Ty, frame: &Frame, a: &Opnd, b: &Opnd) -> Option<bool>
    ensures { Finds result (Tests op ty frame.now a.now b.now) }
{
    match ty {
        Ty::Int(t) => test_numbers(op, t, frame, a, b),
        Ty::Ptr => test_pointers(op, frame, a, b),
    }
}

/// What an operator gives of two numbers (C99 6.5.5 to 6.5.12).
fn computed_number(op: Op, t: IntType, frame: &Frame, a: &Opnd, b: &Opnd) -> Option<Value>
    requires { AreOperands op t frame.now a.now b.now }
    ensures { Finds result (Computes op (kind.Int t) frame.now a.now b.now) }
{
    match number(frame, a) {
        None => None,
        Some(v) => match number(frame, b) {
            None => None,
            Some(w) => match binary(op, t, v, w) {
                None => None,
                Some(x) => Some(Value::Number(x)),
            },
        },
    }
}

/// 1 or 0, as a comparison of two pointers holds (C99 6.5.8p6, 6.5.9p3).
fn compared(op: Op, frame: &Frame, a: &Opnd, b: &Opnd) -> Option<Value>
    ensures { Finds result (Computes op kind.Ptr frame.now a.now b.now) }
{
    match test_pointers(op, frame, a, b) {
        None => None,
        Some(holds) => Some(Value::Number(if holds { 1 } else { 0 })),
    }
}

/// What an operator gives of its operands, of the values that it may give.
pub(crate) fn computed(op: Op, ty: Ty, frame: &Frame, a: &Opnd, b: &Opnd) -> Option<Value>
    requires { AreOperandsAt op ty frame.now a.now b.now }
    ensures { Finds result (Computes op ty frame.now a.now b.now) }
{
    match ty {
        Ty::Int(t) => computed_number(op, t, frame, a, b),
        Ty::Ptr => compared(op, frame, a, b),
    }
}

/// What `-a` or `~a` gives (C99 6.5.3.3).
pub(crate) fn negated(op: UnOp, t: IntType, frame: &Frame, a: &Opnd) -> Option<Value>
    requires typed { IsIntType t }
    requires number { IsNumberOf t frame.now a.now }
    ensures { Finds result (Negates op t frame.now a.now) }
{
    match number(frame, a) {
        None => None,
        Some(v) => match unary(op, t, v) {
            None => None,
            Some(x) => Some(Value::Number(x)),
        },
    }
}

fn converted_number(t: IntType, frame: &Frame, from: &Opnd) -> Option<Value>
    requires { IsIntType t }
    ensures { Finds result (Converts (kind.Int t) frame.now from.now) }
{
    match number(frame, from) {
        None => None,
        Some(v) => match conv(t, v) {
            None => None,
            Some(x) => Some(Value::Number(x)),
        },
    }
}

/// What a conversion gives (C99 6.3.1.3, 6.3.2.3p7).
pub(crate) fn converted(ty: Ty, frame: &Frame, from: &Opnd) -> Option<Value>
    requires { IsTypeOfTarget ty }
    ensures { Finds result (Converts ty frame.now from.now) }
{
    match ty {
        Ty::Int(t) => converted_number(t, frame, from),
        Ty::Ptr => pointer_value(frame, from),
    }
}
