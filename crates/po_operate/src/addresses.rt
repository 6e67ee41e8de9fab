// Pointers: made, moved, subtracted and followed.
ghost use Rattle.std.specs.Prelude.{◌≡◌, ◌≤◌, Some, IfOk, slice_get, ◌*ℤ◌};
ghost use Rattle.po_arith.specs.Types.{IsIntType};
ghost use Rattle.po_ir.specs.declared.graph.Reg.{Reg as Register};
ghost use Rattle.po_ir.specs.IntTypes.{IsTypeOfTarget};
ghost use Rattle.po_ir.specs.declared.instr.Ty.TheVariants as kind;
ghost use Rattle.po_memory.specs.Accesses.{LoadAllowed};
ghost use Rattle.po_memory.specs.Bytes.{IsAccess};
ghost use Rattle.po_meaning.specs.Local.{AreAway, IsDistance};
ghost use Rattle.po_operate.specs.Finding.{Finds};
ghost use Rattle.po_operate.specs.Ready.{OnOperand};
ghost use Rattle.po_operate.specs.Values.{IsDistanceIn, IsLoaded, IsMoved, IsSlotStart};
ghost use Rattle.po_memory.specs.Values as values;

use crate::frames::slot_block;
use crate::operands::{number, pointer_value};
use po_arith::{IntType, wrap};
use po_base::{Memory, Opnd, RegNo, SlotNo};
use po_ir::{Access, Graph, Ty};
use po_memory::{Frame, Memory2, Value, load};

/// A pointer to the start of the slot's block (C99 6.5.3.2).
pub(crate) fn slot_start(frame: &Frame, slot: SlotNo) -> Option<Value>
    ensures { Finds result (IsSlotStart frame.now slot) }
{
    match slot_block(frame, slot) {
        None => None,
        Some(block) => Some(Value::Pointer { block, offset: 0 }),
    }
}

/// A value moved by a number; an offset that 128 bits don't count is want of memory.
fn moved(v: &Value, factor: i64, index: i128) -> Result<Value, Memory>
    ensures { IfOk result (λ x. x ≡ values.moved v.now (factor *ℤ index)) }
{
    let by = match (factor as i128).checked_mul(index) {
        None => return Err(Memory),
        Some(by) => by,
    };
    match *v {
        Value::Number(n) => match n.checked_add(by) {
            None => Err(Memory),
            Some(n) => Ok(Value::Number(n)),
        },
        Value::Null => Ok(Value::Null),
        Value::Pointer { block, offset } => match offset.checked_add(by) {
            None => Err(Memory),
            Some(offset) => Ok(Value::Pointer { block, offset }),
        },
        Value::Wild => Ok(Value::Wild),
    }
}

/// The pointer moved by `index` items of `factor` bytes (C99 6.5.6p8).
pub(crate) fn moved_by(
    frame: &Frame,
    base: &Opnd,
    index: &Opnd,
    factor: i64,
) -> Result<Option<Value>, Memory>
    ensures { IfOk result (λ found. Finds found (IsMoved factor frame.now base.now index.now)) }
{
    match pointer_value(frame, base) {
        None => Ok(None),
        Some(v) => match number(frame, index) {
            None => Ok(None),
            Some(i) => Ok(Some(moved(&v, factor, i)?)),
        },
    }
}

/// The distance of two pointers into one block, in items of `size` bytes; none of others.
fn away(size: u64, v: &Value, w: &Value) -> Result<Option<i128>, Memory>
    requires { 1 ≤ size }
    ensures { IfOk result (λ found. Finds found (AreAway size v.now w.now)) }
{
    match *v {
        Value::Number(_) => Ok(None),
        Value::Null => Ok(None),
        Value::Pointer { block, offset } => match *w {
            Value::Number(_) => Ok(None),
            Value::Null => Ok(None),
            Value::Pointer {
                block: other,
                offset: place,
            } => {
                if block != other {
                    return Ok(None);
                }
                match offset.checked_sub(place) {
                    None => Err(Memory),
                    Some(bytes) => Ok(Some(bytes / size as i128)),
                }
            }
            Value::Wild => Ok(None),
        },
        Value::Wild => Ok(None),
    }
}

/// The distance of two operands, wrapped to the type.
fn distance_of(
    size: u64,
    t: IntType,
    frame: &Frame,
    a: &Opnd,
    b: &Opnd,
) -> Result<Option<Value>, Memory>
    requires size { 1 ≤ size }
    requires typed { IsIntType t }
    ensures { IfOk result (λ found. Finds found (IsDistance size frame.now a.now b.now (kind.Int t))) }
{
    match pointer_value(frame, a) {
        None => Ok(None),
        Some(v) => match pointer_value(frame, b) {
            None => Ok(None),
            Some(w) => match away(size, &v, &w)? {
                None => Ok(None),
                Some(n) => Ok(Some(Value::Number(wrap(n, t)))),
            },
        },
    }
}

/// The distance of two pointers as a value of the register's type (C99 6.5.6p9).
pub(crate) fn distance(
    g: &Graph,
    to: RegNo,
    size: u64,
    frame: &Frame,
    a: &Opnd,
    b: &Opnd,
) -> Result<Option<Value>, Memory>
    requires size { 1 ≤ size }
    requires typed { (register : Register) → slice_get g.now.regs to.0 ≡ Some register → IsTypeOfTarget register.ty }
    ensures { IfOk result (λ found. Finds found (IsDistanceIn g.now to size frame.now a.now b.now)) }
{
    match g.regs.get(to.0 as usize) {
        None => Ok(None),
        Some(register) => match register.ty {
            Ty::Int(t) => distance_of(size, t, frame, a, b),
            Ty::Ptr => Ok(None),
        },
    }
}

/// What stands in memory there (C99 6.3.2.1p2).
pub(crate) fn loaded(frame: &Frame, m: &Memory2, at: &Opnd, access: Access) -> Option<Value>
    requires access { IsAccess access }
    requires allowed { OnOperand frame.now at.now (LoadAllowed access m.now.blocks) }
    ensures { Finds result (IsLoaded access m.now.blocks frame.now at.now) }
{
    match pointer_value(frame, at) {
        None => None,
        Some(v) => load(m, &v, access),
    }
}
