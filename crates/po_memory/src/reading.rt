// Values read from memory (C99 6.2.6, 6.3.2.1).
ghost use Rattle.std.specs.Prelude.{◌≡◌, ◌≤◌, ◌↔◌, IsTrue, IsSome, IfSome, MatchOption, length, slice_range};
ghost use Rattle.po_arith.specs.Types.{IsIntType};
ghost use Rattle.po_memory.specs.Accesses.{LoadAllowed, Loads};
ghost use Rattle.po_memory.specs.Bytes.{AreRead, HasSize, IsAccess, IsPointerRead, IsTypeOfTarget, parts, zeros};
ghost use Rattle.po_memory.specs.Walking.{AllowsLoad, AreJoined, AreNoNumbers, IsChosen, IsChosenNumber, IsChosenValue, IsLoadable, IsReadAt, IsStretch};
ghost use Rattle.po_memory.specs.declared.value.Byte.TheVariants as byte;

use crate::block::{Block, Stretch, have_values};
use crate::memory::Memory2;
use crate::value::{Byte, Value};
use po_arith::{IntType, wrap};
use po_ir::{Access, Ty};

/// The number of these bytes, at most eight, the lowest first, where each is a number.
fn joined(bytes: &[Byte]) -> Option<u64>
    requires { length bytes.now ≤ 8 }
    ensures { MatchOption result (AreNoNumbers bytes.now) (AreJoined bytes.now) }
{
    let mut sum: u64 = 0;
    let mut left = bytes.len();
    while 0 < left {
        left -= 1;
        match bytes[left] {
            Byte::Number(n) => sum = sum * 256 + n as u64,
            Byte::Blank => return None,
            Byte::Part { .. } => return None,
        }
    }
    Some(sum)
}

/// The number of the type that these bytes are, wrapped to the type; 0 where one of them is no number.
fn number(bytes: &[Byte], t: IntType) -> i128
    requires size { length bytes.now ≤ 8 }
    requires typed { IsIntType t }
    ensures { IsChosenNumber t bytes.now result }
{
    match joined(bytes) {
        None => 0,
        Some(sum) => wrap(sum as i128, t),
    }
}

fn is_zero(b: &Byte) -> bool
    ensures { IsTrue result ↔ (b.now ≡ byte.Number 0) }
{
    match b {
        Byte::Blank => false,
        Byte::Number(n) => *n == 0,
        Byte::Part { .. } => false,
    }
}

fn are_zeros(bytes: &[Byte]) -> bool
    ensures { IsTrue result ↔ (bytes.now ≡ zeros (length bytes.now)) }
{
    for i in 0..bytes.len() {
        if !is_zero(&bytes[i]) {
            return false;
        }
    }
    true
}

fn is_part(b: &Byte, of: u64, from: &i128, at: usize) -> bool
    ensures { IsTrue result ↔ (b.now ≡ byte.Part of from.now at) }
{
    match b {
        Byte::Blank => false,
        Byte::Number(_) => false,
        Byte::Part { block, offset, k } => *block == of && *offset == *from && *k as usize == at,
    }
}

fn are_parts(bytes: &[Byte], block: u64, offset: &i128) -> bool
    ensures { IsTrue result ↔ (bytes.now ≡ parts (length bytes.now) block offset.now) }
{
    for i in 0..bytes.len() {
        if !is_part(&bytes[i], block, offset, i) {
            return false;
        }
    }
    true
}

fn pointer(bytes: &[Byte]) -> Value
    requires { 1 ≤ length bytes.now }
    ensures { IsPointerRead bytes.now result }
{
    if are_zeros(bytes) {
        return Value::Null;
    }
    match bytes[0] {
        Byte::Blank => Value::Wild,
        Byte::Number(_) => Value::Wild,
        Byte::Part { block, offset, .. } => {
            if are_parts(bytes, block, &offset) {
                return Value::Pointer { block, offset };
            }
            Value::Wild
        }
    }
}

fn value(bytes: &[Byte], ty: Ty) -> Value
    requires some { 1 ≤ length bytes.now }
    requires few { length bytes.now ≤ 8 }
    requires typed { IsTypeOfTarget ty }
    requires whole { HasSize ty (length bytes.now) }
    ensures read { AreRead ty bytes.now result }
    ensures chosen { IsChosenValue ty bytes.now result }
{
    match ty {
        Ty::Int(t) => Value::Number(number(bytes, t)),
        Ty::Ptr => pointer(bytes),
    }
}

fn is_loadable(c: &Block, offset: i128, align: u64, s: &Stretch) -> bool
    requires { s.now.end ≤ length c.now.bytes }
    ensures { IsTrue result ↔ IsLoadable align offset s.now c.now }
{
    if !c.alive {
        return false;
    }
    if !c.is_aligned_above(offset, align) {
        return false;
    }
    have_values(c.bytes.as_slice(), s.start, s.end)
}

fn load_stretch(c: &Block, offset: i128, access: Access, s: &Stretch) -> Option<Value>
    requires access { IsAccess access }
    requires there { IsStretch offset access.size c.now s.now }
    ensures allowed { IsSome result ↔ IsLoadable access.align offset s.now c.now }
    ensures value { IfSome result (IsReadAt access offset c.now) }
{
    if !is_loadable(c, offset, access.align, s) {
        return None;
    }
    Some(value(&c.bytes.as_slice()[s.start..s.end], access.ty))
}

fn load_from(c: &Block, offset: i128, access: Access) -> Option<Value>
    requires { IsAccess access }
    ensures allowed { IsSome result ↔ AllowsLoad access offset c.now }
    ensures value { IfSome result (IsReadAt access offset c.now) }
{
    match c.stretch(offset, access.size) {
        None => None,
        Some(s) => load_stretch(c, offset, access, &s),
    }
}

/// The value that is read by a pointer: None exactly where what a load asks of it doesn't all hold. Where the bytes may be
/// more than one number of the type, it is theirs, wrapped to the type, and 0 where a part of a pointer is among them. Takes no
/// memory, in constant time.
pub fn load(m: &Memory2, at: &Value, access: Access) -> Option<Value>
    requires { IsAccess access }
    ensures allowed { IsSome result ↔ LoadAllowed access m.now.blocks at.now }
    ensures value { IfSome result (Loads access m.now.blocks at.now) }
    ensures chosen { IfSome result (IsChosen access m.now.blocks at.now) }
{
    match *at {
        Value::Number(_) => None,
        Value::Null => None,
        Value::Pointer { block, offset } => match m.blocks.get(block as usize) {
            None => None,
            Some(c) => load_from(c, offset, access),
        },
        Value::Wild => None,
    }
}
