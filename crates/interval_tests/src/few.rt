ghost use Rattle.std.specs.Prelude.{IfOk, IfSome};
ghost use Rattle.po_arith.specs.Types.{IsIntType};
ghost use Rattle.po_interval.specs.Members.{AreOfType};

use crate::questions::{members, show_members};
use crate::words::{op_of, type_of};
use po_arith::IntType;
use po_base::{Memory, Op, UnOp};
use po_interval::{Members, bin_members, conv_members, members_of_results_are_of_type, un_members};
use std::alloc::Global;
use std::io;

/// Members made numbers of a type.
fn typed(alloc: Global, t: IntType, a: &Members) -> Result<Option<Members>, Memory>
    requires { IsIntType t }
    ensures { IfOk result (λ m. IfSome m (AreOfType t)) }
{
    members_of_results_are_of_type();
    let converted = conv_members(alloc, t, a)?;
    Ok(converted)
}

/// The members of the results of a binary operation, whose operands are made numbers of the type, but for a
/// shift's count.
fn of_both(
    alloc: Global,
    op: Op,
    t: IntType,
    a: &Members,
    b: &Members,
) -> Result<Option<Members>, Memory>
    requires { IsIntType t }
{
    let Some(a) = typed(alloc, t, a)? else {
        return Ok(None);
    };
    match op {
        Op::Shl => bin_members(alloc, Op::Shl, t, &a, b),
        Op::Shr => bin_members(alloc, Op::Shr, t, &a, b),
        _ => match typed(alloc, t, b)? {
            None => Ok(None),
            Some(b) => bin_members(alloc, op, t, &a, &b),
        },
    }
}

/// The members of the results of a unary operation, whose operand is made one of numbers of the type.
fn of_one(alloc: Global, op: UnOp, t: IntType, a: &Members) -> Result<Option<Members>, Memory>
    requires { IsIntType t }
{
    match typed(alloc, t, a)? {
        None => Ok(None),
        Some(a) => un_members(alloc, op, t, &a),
    }
}

/// The members of the results that a verb asks for, of lists that are parted by `/`.
fn results(alloc: Global, verb: &str, t: IntType, words: &[&str]) -> Result<Option<Members>, Memory>
    requires { IsIntType t }
{
    let Some(at) = words.iter().position(|word| *word == "/") else {
        let a = members(alloc, words)?;
        return match verb {
            "neg" => of_one(alloc, UnOp::Neg, t, &a),
            "not" => of_one(alloc, UnOp::Not, t, &a),
            _ => conv_members(alloc, t, &a),
        };
    };
    let a = members(alloc, &words[..at])?;
    let b = members(alloc, &words[at + 1..])?;
    match op_of(verb) {
        None => Ok(None),
        Some(op) => of_both(alloc, op, t, &a, &b),
    }
}

/// Answers a question of the members of an operation's results.
pub(crate) fn answer_few(rt: &(impl Print + AllocGlobal), words: &[&str]) -> io::Result<()> {
    let [verb, kind, more @ ..] = words else {
        return println!(rt; "?");
    };
    let Some(t) = type_of(kind) else {
        return println!(rt; "?");
    };
    match results(rt.alloc(), verb, t, more) {
        Err(Memory) => println!(rt; "no memory"),
        Ok(None) => println!(rt; "none"),
        Ok(Some(m)) => show_members(rt, &m),
    }
}
