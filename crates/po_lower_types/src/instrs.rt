// The instructions of binary operators, by the types of their operands.
ghost use Rattle.std.specs.Prelude.{◌≡◌, neg_ℤ, true};
ghost use Rattle.po_ir.specs.declared.instr.Instr.TheVariants as ins;
ghost use Rattle.po_lowering.specs.Conversions as conversions;
ghost use Rattle.po_lowering.specs.Types as types;
ghost use Rattle.po_lowering.specs.Typed.{Typed};
ghost use Rattle.po_lower_types.specs.Measured.{IsMeasured};

use crate::kinds::{is_address, is_struct, register_type};
use crate::sizes::{access_of, align, element_size, size, step_size};
use po_base::{Op, Opnd, RegNo};
use po_ir::Instr;
use po_types::{CType, Env};

/// A binary operator in the type of its left operand.
fn computes(operator: Op, t: &CType, v: Opnd, w: Opnd, r: RegNo) -> Instr
    ensures { result ≡ ins.Bin r operator (types.register_type t.now) v w }
{
    Instr::Bin {
        to: r,
        op: operator,
        ty: register_type(t),
        a: v,
        b: w,
    }
}

/// A pointer of a type that is moved by so many elements.
fn moves(env: &Env, t: &CType, base: Opnd, index: Opnd, r: RegNo) -> Instr
    ensures { (f : Typed) → IsMeasured env.now f → result ≡ ins.PtrAdd r base index (conversions.step_size f t.now) }
{
    Instr::PtrAdd {
        to: r,
        base,
        index,
        factor: step_size(env, t),
    }
}

/// A pointer of a type that is moved back by so many elements.
fn moves_back(env: &Env, t: &CType, base: Opnd, index: Opnd, r: RegNo) -> Instr
    ensures { (f : Typed) → IsMeasured env.now f → result ≡ ins.PtrAdd r base index (neg_ℤ (conversions.step_size f t.now)) }
{
    Instr::PtrAdd {
        to: r,
        base,
        index,
        factor: -step_size(env, t),
    }
}

/// The distance of two pointers of a type, in elements.
fn distance(env: &Env, t: &CType, v: Opnd, w: Opnd, r: RegNo) -> Instr
    ensures { (f : Typed) → IsMeasured env.now f → result ≡ ins.PtrDiff r v w (f.size (types.referenced t.now)) }
{
    Instr::PtrDiff {
        to: r,
        a: v,
        b: w,
        size: element_size(env, t),
    }
}

/// A sum; one of the operands may be a pointer.
fn adds(env: &Env, t: &CType, u: &CType, v: Opnd, w: Opnd, r: RegNo) -> Instr
    ensures { (f : Typed) → IsMeasured env.now f → result ≡ conversions.adds f (types.is_address t.now) (types.is_address u.now) t.now u.now v w r.0 }
{
    if is_address(t) {
        return moves(env, t, v, w, r);
    }
    if is_address(u) {
        return moves(env, u, w, v, r);
    }
    computes(Op::Add, t, v, w, r)
}

/// A difference; the first operand, or both, may be pointers.
fn subtracts(env: &Env, t: &CType, u: &CType, v: Opnd, w: Opnd, r: RegNo) -> Instr
    ensures { (f : Typed) → IsMeasured env.now f → result ≡ conversions.subtracts f (types.is_address t.now) (types.is_address u.now) t.now u.now v w r.0 }
{
    if !is_address(t) {
        return computes(Op::Sub, t, v, w, r);
    }
    if is_address(u) {
        return distance(env, t, v, w, r);
    }
    moves_back(env, t, v, w, r)
}

/// The node of a binary operator over converted operands of two types: a pointer is moved by elements, two pointers have a distance in elements (C99
/// 6.5.2.1, 6.5.5 to 6.5.14). Takes time in the number of arrays in the types.
pub fn combines(env: &Env, operator: Op, t: &CType, u: &CType, v: Opnd, w: Opnd, r: RegNo) -> Instr
    ensures { (f : Typed) → IsMeasured env.now f → result ≡ conversions.combines f operator t.now u.now v w r.0 }
{
    match operator {
        Op::Add => adds(env, t, u, v, w, r),
        Op::Sub => subtracts(env, t, u, v, w, r),
        _ => computes(operator, t, v, w, r),
    }
}

/// A pointer of a type that is moved by one element, on or back.
fn moves_once(env: &Env, operator: Op, t: &CType, v: Opnd, r: RegNo) -> Instr
    ensures { (f : Typed) → IsMeasured env.now f → result ≡ conversions.step_of f operator true t.now v r.0 }
{
    match operator {
        Op::Sub => moves_back(env, t, v, Opnd::Num(1), r),
        _ => moves(env, t, v, Opnd::Num(1), r),
    }
}

/// The node by which `++` adds 1 to a value of a type, or `--` subtracts it: a pointer is moved by an element (C99 6.5.2.4, 6.5.3.1). Takes time in
/// the number of the type's arrays.
pub fn steps(env: &Env, operator: Op, t: &CType, v: Opnd, r: RegNo) -> Instr
    ensures { (f : Typed) → IsMeasured env.now f → result ≡ conversions.steps f operator t.now v r.0 }
{
    if is_address(t) {
        return moves_once(env, operator, t, v, r);
    }
    computes(operator, t, v, Opnd::Num(1), r)
}

/// The node that writes a value of a type to memory; a struct is copied from its address (C99 6.5.16.1). Takes time in the number of the type's arrays.
pub fn store(env: &Env, t: &CType, to: Opnd, v: Opnd) -> Instr
    ensures { (f : Typed) → IsMeasured env.now f → result ≡ conversions.store f t.now to v }
{
    if is_struct(t) {
        return Instr::CopyBytes {
            to,
            from: v,
            size: size(env, t),
            align: align(env, t),
        };
    }
    Instr::Store {
        at: to,
        value: v,
        access: access_of(env, t),
    }
}
