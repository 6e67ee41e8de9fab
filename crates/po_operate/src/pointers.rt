// Comparisons of pointers (C99 6.5.8, 6.5.9).
ghost use Rattle.std.specs.Prelude.{◌≡◌};
ghost use Rattle.po_meaning.specs.Pointers as comparisons;
ghost use Rattle.po_meaning.specs.Pointers.{MayCompare, MayEqual, MayOrder};
ghost use Rattle.po_operate.specs.Finding.{Finds};
ghost use Rattle.po_base.specs.declared.operators.Op.TheVariants as op;

use po_base::Op;
use po_memory::Value;

/// Whether the comparison holds of two numbers (C99 6.5.8p6, 6.5.9p3).
pub(crate) fn compares(op: Op, v: i128, w: i128) -> bool
    ensures { result ≡ comparisons.compares op v w }
{
    match op {
        Op::Eq => v == w,
        Op::Ne => v != w,
        Op::Lt => v < w,
        Op::Le => v <= w,
        Op::Gt => v > w,
        Op::Ge => v >= w,
        _ => false,
    }
}

/// Whether two pointers are equal (C99 6.5.9p6): those of which nothing is known are told apart.
fn equal(v: &Value, w: &Value) -> Option<bool>
    ensures { Finds result (MayEqual v.now w.now) }
{
    match v {
        Value::Number(_) => None,
        Value::Null => match w {
            Value::Number(_) => None,
            Value::Null => Some(true),
            Value::Pointer { .. } => Some(false),
            Value::Wild => Some(false),
        },
        Value::Pointer { block, offset } => match w {
            Value::Number(_) => None,
            Value::Null => Some(false),
            Value::Pointer {
                block: other,
                offset: place,
            } => { Some(*block == *other && *offset == *place) }
            Value::Wild => Some(false),
        },
        Value::Wild => match w {
            Value::Number(_) => None,
            Value::Null => Some(false),
            Value::Pointer { .. } => Some(false),
            Value::Wild => Some(false),
        },
    }
}

/// How two pointers into one block stand to each other (C99 6.5.8p5).
fn order(op: Op, v: &Value, w: &Value) -> Option<bool>
    ensures { Finds result (MayOrder op v.now w.now) }
{
    match v {
        Value::Number(_) => None,
        Value::Null => None,
        Value::Pointer { block, offset } => match w {
            Value::Number(_) => None,
            Value::Null => None,
            Value::Pointer {
                block: other,
                offset: place,
            } => {
                if *block != *other {
                    return None;
                }
                Some(compares(op, *offset, *place))
            }
            Value::Wild => None,
        },
        Value::Wild => None,
    }
}

fn differ(v: &Value, w: &Value) -> Option<bool>
    ensures { Finds result (MayCompare op.Ne v.now w.now) }
{
    match equal(v, w) {
        None => None,
        Some(holds) => Some(!holds),
    }
}

/// Whether a comparison of two pointers holds, of those that C99 allows.
pub(crate) fn compare(op: Op, v: &Value, w: &Value) -> Option<bool>
    ensures { Finds result (MayCompare op v.now w.now) }
{
    match op {
        Op::Eq => equal(v, w),
        Op::Ne => differ(v, w),
        Op::Lt => order(op, v, w),
        Op::Le => order(op, v, w),
        Op::Gt => order(op, v, w),
        Op::Ge => order(op, v, w),
        _ => None,
    }
}
