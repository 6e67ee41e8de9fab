// Members of the results of operations on few numbers.
ghost use Rattle.std.specs.Prelude.{◌≡◌, IfOk, ℤ, false, filter_map};
ghost use Rattle.po_arith.specs.Types.{IsIntType, IsOfType};
ghost use Rattle.po_interval.specs.Sets.{IsAmong, insert_all};
ghost use Rattle.po_interval.specs.Members.{AreOfType};
ghost use Rattle.po_interval.specs.Ranges.{takes_count};
ghost use Rattle.po_interval.specs.Results as results;
ghost use Rattle.po_interval.specs.Gathering as gathering;

use crate::members::Members;
use crate::results::{binary, conv, unary};
use crate::sets::few;
use po_arith::IntType;
use po_base::{Memory, Op, OrdList, SharedList, UnOp};
use std::alloc::Global;

/// Members of the numbers of a set, and `None` where there are none.
fn gathered(alloc: Global, numbers: &OrdList<i128>) -> Result<Option<Members>, Memory>
    ensures { IfOk result (λ m. m ≡ gathering.of_set numbers.now) }
{
    if numbers.len() == 0 {
        Ok(None)
    } else {
        Ok(Some(few(alloc, numbers)?))
    }
}

/// Puts a result that is there into a set.
fn put(numbers: &mut OrdList<i128>, v: Option<i128>) -> Result<(), Memory>
    ensures { IfOk result (λ _. numbers.new ≡ gathering.put numbers.old v) }
{
    if let Some(v) = v {
        numbers.insert(v)?;
    }
    Ok(())
}

/// Puts the results of one number with each of others into a set.
fn put_row(
    numbers: &mut OrdList<i128>,
    op: Op,
    t: IntType,
    x: i128,
    ys: &[i128],
) -> Result<(), Memory>
    requires t { IsIntType t }
    requires x { IsOfType t x }
    requires ys { takes_count op ≡ false → (v : ℤ) → IsAmong v ys.now → IsOfType t v }
    ensures { IfOk result (λ _. numbers.new ≡ insert_all numbers.old (filter_map (results.binary op t x) ys.now)) }
{
    for y in ys {
        put(numbers, binary(op, t, x, *y))?;
    }
    Ok(())
}

/// The results of each number with each of others.
fn of_pairs(
    alloc: Global,
    op: Op,
    t: IntType,
    xs: &[i128],
    ys: &[i128],
) -> Result<Option<Members>, Memory>
    requires t { IsIntType t }
    requires xs { (v : ℤ) → IsAmong v xs.now → IsOfType t v }
    requires ys { takes_count op ≡ false → (v : ℤ) → IsAmong v ys.now → IsOfType t v }
    ensures { IfOk result (λ m. m ≡ gathering.gathered (gathering.pairs (results.binary op t) xs.now ys.now)) }
{
    let mut numbers = OrdList::new(alloc);
    for x in xs {
        put_row(&mut numbers, op, t, *x, ys)?;
    }
    gathered(alloc, &numbers)
}

fn is_comparison(op: Op) -> bool
    ensures { result ≡ gathering.is_comparison op }
{
    match op {
        Op::Eq => true,
        Op::Ne => true,
        Op::Lt => true,
        Op::Le => true,
        Op::Gt => true,
        Op::Ge => true,
        _ => false,
    }
}

/// The results of any numbers.
fn of_any(alloc: Global, op: Op) -> Result<Members, Memory>
    ensures { IfOk result (λ m. m ≡ gathering.of_any op) }
{
    if is_comparison(op) {
        Ok(Members::Few(SharedList::from_slice(alloc, &[0, 1])?))
    } else {
        Ok(Members::Any)
    }
}

/// The members of what `v op w` may give for members of `a` and of `b`, where nothing happens that C99 leaves
/// undefined (6.5.5 to 6.5.12): the results of all pairs where both are few and these are at most eight, else
/// any, and of any numbers 0 and 1 where `op` compares. `None` where no pair has a result. The second operand
/// of a shift needn't be of the type.
pub fn bin_members(
    alloc: Global,
    op: Op,
    t: IntType,
    a: &Members,
    b: &Members,
) -> Result<Option<Members>, Memory>
    requires t { IsIntType t }
    requires a { AreOfType t a.now }
    requires b { takes_count op ≡ false → AreOfType t b.now }
    ensures { IfOk result (λ m. m ≡ gathering.bin_members op t a.now b.now) }
{
    match a {
        Members::Any => Ok(Some(of_any(alloc, op)?)),
        Members::Few(xs) => match b {
            Members::Any => Ok(Some(of_any(alloc, op)?)),
            Members::Few(ys) => of_pairs(alloc, op, t, xs.as_slice(), ys.as_slice()),
        },
    }
}

fn un_few(alloc: Global, op: UnOp, t: IntType, xs: &[i128]) -> Result<Option<Members>, Memory>
    requires t { IsIntType t }
    requires xs { (v : ℤ) → IsAmong v xs.now → IsOfType t v }
    ensures { IfOk result (λ m. m ≡ gathering.gathered (filter_map (results.unary op t) xs.now)) }
{
    let mut numbers = OrdList::new(alloc);
    for x in xs {
        put(&mut numbers, unary(op, t, *x))?;
    }
    gathered(alloc, &numbers)
}

/// The members of what `-v` or `~v` may give for members of `a`, where nothing happens that C99 leaves undefined
/// (6.5.3.3). `None` where no member has a result.
pub fn un_members(
    alloc: Global,
    op: UnOp,
    t: IntType,
    a: &Members,
) -> Result<Option<Members>, Memory>
    requires t { IsIntType t }
    requires a { AreOfType t a.now }
    ensures { IfOk result (λ m. m ≡ gathering.un_members op t a.now) }
{
    match a {
        Members::Any => Ok(Some(Members::Any)),
        Members::Few(xs) => un_few(alloc, op, t, xs.as_slice()),
    }
}

fn conv_few(alloc: Global, t: IntType, xs: &[i128]) -> Result<Option<Members>, Memory>
    requires { IsIntType t }
    ensures { IfOk result (λ m. m ≡ gathering.gathered (filter_map (results.conv t) xs.now)) }
{
    let mut numbers = OrdList::new(alloc);
    for x in xs {
        put(&mut numbers, conv(t, *x))?;
    }
    gathered(alloc, &numbers)
}

/// The members of what a conversion of a member of `a` to the type may give (C99 6.3.1.3): for a signed type those
/// that fit, since a conversion of others isn't allowed to happen, for an unsigned one each modulo 2 to its
/// width. `None` where none fits.
pub fn conv_members(alloc: Global, t: IntType, a: &Members) -> Result<Option<Members>, Memory>
    requires { IsIntType t }
    ensures { IfOk result (λ m. m ≡ gathering.conv_members t a.now) }
{
    match a {
        Members::Any => Ok(Some(Members::Any)),
        Members::Few(xs) => conv_few(alloc, t, xs.as_slice()),
    }
}
