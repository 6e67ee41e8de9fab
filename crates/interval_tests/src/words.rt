ghost use Rattle.std.specs.Prelude.{IfSome};
ghost use Rattle.po_arith.specs.Types.{IsIntType};

use po_arith::IntType;
use po_base::Op;

/// The type that a word names.
pub(crate) fn type_of(word: &str) -> Option<IntType>
    ensures { IfSome result IsIntType }
{
    match word {
        "u1" => Some(IntType {
            bits: 1,
            signed: false,
        }),
        "i8" => Some(IntType {
            bits: 8,
            signed: true,
        }),
        "u8" => Some(IntType {
            bits: 8,
            signed: false,
        }),
        "i16" => Some(IntType {
            bits: 16,
            signed: true,
        }),
        "u16" => Some(IntType {
            bits: 16,
            signed: false,
        }),
        "i32" => Some(IntType {
            bits: 32,
            signed: true,
        }),
        "u32" => Some(IntType {
            bits: 32,
            signed: false,
        }),
        "i64" => Some(IntType {
            bits: 64,
            signed: true,
        }),
        "u64" => Some(IntType {
            bits: 64,
            signed: false,
        }),
        _ => None,
    }
}

/// The operator that a word names.
pub(crate) fn op_of(word: &str) -> Option<Op> {
    match word {
        "add" => Some(Op::Add),
        "sub" => Some(Op::Sub),
        "mul" => Some(Op::Mul),
        "div" => Some(Op::Div),
        "rem" => Some(Op::Rem),
        "and" => Some(Op::And),
        "or" => Some(Op::Or),
        "xor" => Some(Op::Xor),
        "shl" => Some(Op::Shl),
        "shr" => Some(Op::Shr),
        "eq" => Some(Op::Eq),
        "ne" => Some(Op::Ne),
        "lt" => Some(Op::Lt),
        "le" => Some(Op::Le),
        "gt" => Some(Op::Gt),
        "ge" => Some(Op::Ge),
        _ => None,
    }
}
